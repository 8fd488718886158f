//! What is printed for a task: the text of the search, or the line of a refusal. Begin with `answer`.
ghost use Rattle.std.specs.Prelude.{◌≡◌, ◌≤◌, ◌++◌, IfOk, OnOk};
ghost use Rattle.pddl_task.specs.Linear.{IsLinear};
ghost use Rattle.patty_run.specs.Outside.{output_seen};
ghost use Rattle.patty_run.specs.Printed.{joined, PutsAll};
ghost use Rattle.patty_run.specs.inside.Runs.{PrintsAs};
ghost use Rattle.planner.specs.Planner as planners;
ghost use Rattle.planner.specs.inside.Answering.{found_status, EndsFailed, IsAnswered};

use ground::GroundFail;
use operation_text::write_operation;
use patty_io::{Sink, SinkFail, Status};
use patty_run::{finish, put_all, put_bytes};
use pddl_task::Task;
use planner_text::Limits;
use search::{Found, SearchFail, plan_up_to};
use std::alloc::{AllocError, Global};

const NOT_BUILT: [&str; 1] = ["fault problem 23 0\n"];

fn add_refusal(fail: &GroundFail, line: &mut Vec<u8>) -> Result<(), AllocError>
    ensures { OnOk result (line.new.items ≡ line.old.items ++ joined (planners.refusal_lines fail.now)) }
{
    match fail {
        GroundFail::Many => line.extend_from_slice(b"fault task 14\n"),
        GroundFail::CoefWide(wide) => {
            line.extend_from_slice(b"fault task 16 ")?;
            write_operation(wide, line)?;
            line.push(b'\n')?;
            Ok(())
        }
        GroundFail::Memory => Ok(()),
    }
}

fn refusal_line(alloc: Global, fail: &GroundFail) -> Result<Vec<u8>, AllocError>
    ensures { IfOk result (λ line. line.items ≡ joined (planners.refusal_lines fail.now)) }
{
    let mut line = Vec::new(alloc);
    add_refusal(fail, &mut line)?;
    Ok(line)
}

fn put_refusal<O: Sink>(alloc: Global, fail: &GroundFail, out: &mut O) -> Result<(), SinkFail>
    ensures { PutsAll (output_seen O.written O.faults out.old out.new) (joined (planners.refusal_lines fail.now)) result }
{
    let Ok(line) = refusal_line(alloc, fail) else {
        return Err(SinkFail::Memory);
    };
    put_bytes(out, &line)
}

fn print_refusal<O: Sink>(alloc: Global, fail: &GroundFail, out: &mut O) -> Status
    ensures { PrintsAs (output_seen O.written O.faults out.old out.new) (planners.refusal_lines fail.now) 3 result.code }
{
    let written = put_refusal(alloc, fail, out);
    finish(written, 3)
}

fn print_not_built<O: Sink>(out: &mut O) -> Status
    ensures { PrintsAs (output_seen O.written O.faults out.old out.new) planners.not_built_lines 3 result.code }
{
    let written = put_all(out, &NOT_BUILT);
    finish(written, 3)
}

/// The end of a run whose search found no end.
fn end_failed<O: Sink>(alloc: Global, fail: &SearchFail, out: &mut O) -> Status
    ensures { EndsFailed (output_seen O.written O.faults out.old out.new) fail.now result.code }
{
    match fail {
        SearchFail::Ground(why) => print_refusal(alloc, why, out),
        SearchFail::NotBuilt => print_not_built(out),
        SearchFail::Sink => Status { code: 6 },
        SearchFail::Memory => Status { code: 7 },
    }
}

fn status_of_found(found: &Found) -> u8
    ensures { result ≡ found_status found.now }
{
    match found {
        Found::Plan { .. } => 0,
        Found::NoPlan { .. } => 1,
        Found::Unknown { .. } => 2,
    }
}

fn linear(task: &Task)
    ensures { IsLinear task.now }
{
    task.well_formed();
}

/// Plans for the task, and prints what comes of it.
pub(crate) fn answer<O: Sink>(alloc: Global, task: &Task, limits: &Limits, out: &mut O) -> Status
    requires { limits.now.max_n ≤ 1000 }
    ensures { IsAnswered (output_seen O.written O.faults out.old out.new) limits.now task.now result.code }
{
    linear(task);
    match plan_up_to(alloc, task, limits, out) {
        Ok(found) => Status {
            code: status_of_found(&found),
        },
        Err(fail) => end_failed(alloc, &fail, out),
    }
}
