//! Taking the files of a program in order, up to the first that can't be taken.
ghost use Rattle.std.specs.Prelude.{◌≡◌, ℕ, List, map};
ghost use Rattle.patty_run.specs.Inputs.{file_of};
ghost use Rattle.patty_run.specs.Outside.{files_seen};
ghost use Rattle.patty_run.specs.Causes.{Counts};
ghost use Rattle.patty_run.specs.Taken.{AreTaken};
ghost use Rattle.patty_run.specs.inside.Taking.{IsTaken};

use crate::{Input, NamedInput, Stop};
use patty_io::{Shelf, ShelfFail};
use std::alloc::Global;

/// The bytes of a file, or why there are none.
fn take_input<F: Shelf>(
    alloc: Global,
    files: &mut F,
    name: &str,
    input: Input,
) -> Result<Vec<u8>, Stop>
    ensures taken { IsTaken (files_seen F.content F.faults files.old files.new) name.now input result }
    ensures counts { Counts (files_seen F.content F.faults files.old files.new) result }
    ensures content { (of : List ℕ) → F.content files.new of ≡ F.content files.old of }
{
    let mut bytes = Vec::new(alloc);
    match files.take(name, &mut bytes) {
        Ok(()) => Ok(bytes),
        Err(ShelfFail::Failed) => Err(Stop::ReadFault(input)),
        Err(ShelfFail::Long) => Err(Stop::Long(input)),
        Err(ShelfFail::Memory) => Err(Stop::Memory),
    }
}

/// The bytes of all files, in the order of the inputs, or why the first that can't be taken isn't. No file behind it is tried:
/// a failure there would show in the counts.
pub fn take_inputs<F: Shelf>(
    alloc: Global,
    files: &mut F,
    inputs: &[NamedInput<'_>],
) -> Result<Vec<Vec<u8>>, Stop>
    ensures taken { AreTaken (files_seen F.content F.faults files.old files.new) (map file_of inputs.now) result }
    ensures counts { Counts (files_seen F.content F.faults files.old files.new) result }
    ensures content { (of : List ℕ) → F.content files.new of ≡ F.content files.old of }
{
    let mut all = Vec::new(alloc);
    for named in inputs {
        let bytes = match take_input(alloc, files, named.name, named.input) {
            Ok(bytes) => bytes,
            Err(stop) => return Err(stop),
        };
        let Ok(()) = all.push(bytes) else {
            return Err(Stop::Memory);
        };
    }
    Ok(all)
}
