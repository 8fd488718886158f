//! Lines are printed one by one.
ghost use Rattle.patty_run.specs.Outside.{output_seen};
ghost use Rattle.patty_run.specs.Printed.{joined, PutsAll};

use patty_io::{Sink, SinkFail};
use sqlite_items::Items;

/// Writes lines one behind another.
pub(crate) fn put_lines<O: Sink>(out: &mut O, lines: &[Items<u8>]) -> Result<(), SinkFail>
    ensures { PutsAll (output_seen O.written O.faults out.old out.new) (joined lines.now) result }
{
    for line in lines {
        match out.put(line.as_slice()) {
            Ok(()) => {}
            Err(fail) => return Err(fail),
        }
    }
    Ok(())
}
