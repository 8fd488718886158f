//! The standard output, as a sink.
ghost use Rattle.std.specs.Prelude.{◌≡◌, None};
ghost use Rattle.patty_io.specs.Faults.{capped};
ghost use Rattle.patty_io.specs.Sink.{PutCounts, Puts};
ghost use Rattle.patty_io.specs.inside.Writing.{WritesWhole};

use crate::{Sink, SinkFail};
use std::io;
use std::io::Write;

/// The standard output, of which nothing is told. It counts the errors seen.
#[derive(Drop)]
pub struct OutSink<'a, R: Print> {
    rt: &'a R,
    faults: u64,
}

impl<'a, R: Print> OutSink<'a, R> {
    /// A sink over the standard output.
    pub fn new(rt: &'a R) -> OutSink<'a, R>
        ensures untold { ⟦<OutSink<'a, R> as Sink>⟧.written result ≡ None }
        ensures faults { ⟦<OutSink<'a, R> as Sink>⟧.faults result ≡ 0 }
    {
        OutSink { rt, faults: 0 }
    }
}

/// Writes a piece whole. A write that takes nothing of what is left is a failure. No clause ties a failure to one of the
/// writer, since a writer counts none.
fn write_whole<W: Write>(out: &mut W, bytes: &[u8]) -> bool
    ensures { WritesWhole (W.contents out.old) (W.contents out.new) bytes.now result }
{
    let mut rest = bytes;
    while !rest.is_empty() {
        match out.write(rest) {
            Ok(0) => return false,
            Ok(count) => rest = &rest[count..],
            Err(_) => return false,
        }
    }
    true
}

/// Writes a piece whole, or counts a fault. A writer that tells what it holds shows that nothing is left out.
fn put_to<W: Write>(out: &mut W, faults: &mut u64, bytes: &[u8]) -> Result<(), SinkFail>
    ensures bytes { Puts (W.contents out.old) (W.contents out.new) result bytes.now }
    ensures cause { PutCounts (capped faults.old) (capped faults.new) result }
{
    if write_whole(out, bytes) {
        return Ok(());
    }
    *faults = faults.saturating_add(1);
    Err(SinkFail::Failed)
}

impl<'a, R: Print> Sink for OutSink<'a, R> {
    ghost written = { λ _. None };

    ghost faults = { λ s. capped s.faults };

    fn put(&mut self, bytes: &[u8]) -> Result<(), SinkFail> {
        put_to(&mut io::writer(self.rt), &mut self.faults, bytes)
    }
}
