//! The files of the system, as a shelf.
ghost use Rattle.std.specs.Prelude.{◌≡◌, ℕ, List, [], None, ◌<◌, ◌≤◌, ◌+◌, length, IsErrOf};
ghost use Rattle.patty_io.specs.Shelf.{Takes};
ghost use Rattle.patty_io.specs.Failures.{failures_of};

use crate::failures::Failures;
use crate::{LIMIT, Shelf, ShelfFail};
use std::alloc::Global;
use std::fs;
use std::io::Read;
use std::rt::Files;

const PIECE: usize = 8192;

/// The files of the system, of which nothing is told.
#[derive(Drop)]
pub struct DiskShelf<'a, R: Files> {
    rt: &'a R,
    failures: Failures,
    alloc: Global,
}

impl<'a, R: Files> DiskShelf<'a, R> {
    /// A shelf over the files of the system, none of which has failed yet.
    pub fn new(rt: &'a R, alloc: Global) -> DiskShelf<'a, R>
        ensures untold { (name : List ℕ) → ⟦<DiskShelf<'a, R> as Shelf>⟧.content result name ≡ None }
        ensures faults { (name : List ℕ) → ⟦<DiskShelf<'a, R> as Shelf>⟧.faults result name ≡ 0 }
    {
        DiskShelf {
            rt,
            failures: Failures::new(alloc),
            alloc,
        }
    }
}

/// Takes all that a reader has, or one byte more than may be taken. No clause ties a failure to one of the reader, since a
/// reader counts none.
fn fill<S: Read>(source: &mut S, into: &mut Vec<u8>) -> Result<(), ShelfFail>
    requires { into.old.items ≡ [] }
    ensures { Takes (S.remaining source.old) result into.new.items }
{
    let mut piece = [0u8; PIECE];
    while into.len() <= LIMIT {
        let room = (LIMIT + 1 - into.len()).min(PIECE);
        let Ok(count) = source.read(&mut piece[..room]) else {
            return Err(ShelfFail::Failed);
        };
        if count == 0 {
            return Ok(());
        }
        if into.extend_from_slice(&piece[..count]).is_err() {
            return Err(ShelfFail::Memory);
        }
    }
    Err(ShelfFail::Long)
}

fn fill_from<R: Files>(rt: &R, name: &str, into: &mut Vec<u8>) -> Result<(), ShelfFail>
    requires { into.old.items ≡ [] }
    ensures { Takes None result into.new.items }
{
    let Ok(mut file) = fs::open(rt, name) else {
        return Err(ShelfFail::Failed);
    };
    fill(&mut file, into)
}

impl<'a, R: Files> Shelf for DiskShelf<'a, R> {
    ghost content = { λ _ _. None };

    ghost faults = { λ s name. failures_of s.failures name };

    fn take(&mut self, name: &str, into: &mut Vec<u8>) -> Result<(), ShelfFail> {
        let Ok(noted) = self.failures.prepare(self.alloc, name) else {
            return Err(ShelfFail::Memory);
        };
        match fill_from(self.rt, name, into) {
            Err(ShelfFail::Failed) => {
                self.failures.note(noted);
                Err(ShelfFail::Failed)
            }
            other => other,
        }
    }
}
