//! What is printed: the lines of a verdict, one after another, until a write fails.
ghost use Rattle.std.specs.Prelude.{◌≡◌, map, IfOk, string_bytes};
ghost use Rattle.std.specs.Process.{exit_status};
ghost use Rattle.patty_run.specs.Printed as printed;
ghost use Rattle.patty_run.specs.Outside.{output_seen};
ghost use Rattle.patty_run.specs.Printed.{joined, PutsAll};

use crate::Stop;
use crate::input::word;
use patty_io::{Sink, SinkFail, Status};
use sexpr::{Source, TextFault};
use std::alloc::{AllocError, Global};
use std::process::ExitCode;

/// Writes pieces one behind another.
pub fn put_all<O: Sink>(out: &mut O, pieces: &[&str]) -> Result<(), SinkFail>
    ensures { PutsAll (output_seen O.written O.faults out.old out.new) (joined (map (λ r. r.now) pieces.now)) result }
{
    for piece in pieces {
        match out.put(piece.as_bytes()) {
            Ok(()) => {}
            Err(fail) => return Err(fail),
        }
    }
    Ok(())
}

/// Writes one piece of bytes.
pub fn put_bytes<O: Sink>(out: &mut O, bytes: &[u8]) -> Result<(), SinkFail>
    ensures { PutsAll (output_seen O.written O.faults out.old out.new) bytes.now result }
{
    out.put(bytes)
}

fn source_word(file: Source) -> &'static str
    ensures { result.now ≡ printed.source_word file }
{
    match file {
        Source::Domain => "domain",
        Source::Problem => "problem",
    }
}

/// The line of a fault, without its word.
fn front_of_line(alloc: Global, fault: &TextFault) -> Result<String, AllocError>
    ensures { IfOk result (λ line. string_bytes line ≡ printed.fault_front fault.now) }
{
    let file = source_word(fault.file);
    let kind = fault.kind;
    let place = fault.place;
    format!(in alloc; "fault {file} {kind} {place}")
}

/// The line of a fault.
fn fault_line(alloc: Global, fault: &TextFault) -> Result<String, AllocError>
    ensures { IfOk result (λ line. string_bytes line ≡ printed.fault_line fault.now) }
{
    let mut line = front_of_line(alloc, fault)?;
    let word = fault.word.as_str();
    if !word.is_empty() {
        line.push_str(" ")?;
        line.push_str(word)?;
    }
    line.push_str("\n")?;
    Ok(line)
}

/// The line of a run that comes to no answer; want of memory has none.
fn stop_line(alloc: Global, usage: &str, stop: &Stop) -> Result<String, AllocError>
    ensures { IfOk result (λ line. string_bytes line ≡ joined (printed.stop_lines usage.now stop.now)) }
{
    match stop {
        Stop::Usage => String::from_str(alloc, usage),
        Stop::ReadFault(input) => {
            let word = word(*input);
            format!(in alloc; "fault read {word}\n")
        }
        Stop::Long(input) => {
            let word = word(*input);
            format!(in alloc; "fault {word} long\n")
        }
        Stop::Fault(fault) => fault_line(alloc, fault),
        Stop::Memory => Ok(String::new(alloc)),
    }
}

/// Writes that line.
pub fn put_stop<O: Sink>(
    alloc: Global,
    usage: &str,
    stop: &Stop,
    out: &mut O,
) -> Result<(), SinkFail>
    ensures { PutsAll (output_seen O.written O.faults out.old out.new) (joined (printed.stop_lines usage.now stop.now)) result }
{
    if let Stop::Memory = stop {
        return Ok(());
    }
    let Ok(line) = stop_line(alloc, usage, stop) else {
        return Err(SinkFail::Memory);
    };
    put_all(out, &[line.as_str()])
}

/// The status of a run that comes to no answer.
pub fn status_of_stop(stop: &Stop) -> u8
    ensures { result ≡ printed.stop_status stop.now }
{
    match stop {
        Stop::Usage => 4,
        Stop::ReadFault(_) => 5,
        Stop::Long(_) | Stop::Fault(_) => 3,
        Stop::Memory => 7,
    }
}

/// The status of a run whose lines were written, or weren't.
pub fn finish(written: Result<(), SinkFail>, status: u8) -> Status
    ensures { result.code ≡ printed.status_behind status written }
{
    let code = match written {
        Ok(()) => status,
        Err(SinkFail::Failed) => 6,
        Err(SinkFail::Memory) => 7,
    };
    Status { code }
}

/// The end of the process with a status.
pub fn exit_of(status: Status) -> ExitCode
    ensures { exit_status result ≡ status.code }
{
    ExitCode::from(status.code)
}
