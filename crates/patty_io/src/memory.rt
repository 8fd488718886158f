//! Files and output in memory, which tell all that they hold.
//!
//! Tests make the outside fail with them: the calls whose numbers, from 1, are listed answer `Failed`.
ghost use Rattle.std.specs.Prelude.{◌≡◌, ◌≢◌, ◌≤◌, [], ℕ, List, Some, IsErrOf, option_copied, find, bytes_eq, string_bytes};
ghost use Rattle.patty_io.specs.Shelf.{Takes, TakeCounts};
ghost use Rattle.patty_io.specs.Sink.{Puts, PutCounts};
ghost use Rattle.patty_io.specs.Memory.{file_of, is_missed, sink_is_due, IsNewSink, IsNewShelf, FailsExactly, FailsExactlyOrMemory, SinkWentOn, ShelfWentOn};
ghost use Rattle.patty_io.specs.Faults.{capped};
ghost use Rattle.patty_io.specs.Failures.{failures_of};

use crate::failures::Failures;
use crate::{LIMIT, Shelf, ShelfFail, Sink, SinkFail};
use std::alloc::Global;

/// A file in memory.
#[derive(Drop)]
pub struct NamedBytes {
    pub name: String,
    pub bytes: Vec<u8>,
}

/// Output in memory. The calls whose numbers, from 1, are in `fails` answer `Failed` and append nothing.
#[derive(Drop)]
pub struct MemSink {
    written: Vec<u8>,
    fails: Vec<u64>,
    calls: u64,
    faults: u64,
}

impl MemSink {
    /// A sink whose calls with these numbers, from 1, fail.
    pub fn new(alloc: Global, fails: Vec<u64>) -> MemSink
        ensures written { ⟦<MemSink as Sink>⟧.written result ≡ Some [] }
        ensures faults { ⟦<MemSink as Sink>⟧.faults result ≡ 0 }
        ensures fresh { IsNewSink result fails.items }
    {
        MemSink {
            written: Vec::new(alloc),
            fails,
            calls: 0,
            faults: 0,
        }
    }

    /// All that was written.
    pub fn written(&self) -> &[u8]
        ensures { ⟦<MemSink as Sink>⟧.written self.now ≡ Some result.now }
    {
        self.written.as_slice()
    }
}

impl Sink for MemSink {
    ghost written = { λ s. Some s.written.items };

    ghost faults = { λ s. capped s.faults };

    fn put(&mut self, bytes: &[u8]) -> Result<(), SinkFail>
        ensures bytes { Puts (Some self.old.written.items) (Some self.new.written.items) result bytes.now }
        ensures cause { PutCounts (capped self.old.faults) (capped self.new.faults) result }
        ensures failed { FailsExactly (sink_is_due self.old) result }
        ensures nothing { IsErrOf result SinkFail.Failed → self.new.written.items ≡ self.old.written.items }
        ensures next { SinkWentOn self.old self.new }
    {
        self.calls = self.calls.saturating_add(1);
        if self.fails.contains(&self.calls) {
            self.faults = self.faults.saturating_add(1);
            return Err(SinkFail::Failed);
        }
        match self.written.extend_from_slice(bytes) {
            Ok(()) => Ok(()),
            Err(_) => Err(SinkFail::Memory),
        }
    }
}

/// Output in memory that never answers `Failed`: its count of faults is the constant 0.
#[derive(Drop)]
pub struct SureSink {
    written: Vec<u8>,
}

impl SureSink {
    /// A sink that never fails.
    pub fn new(alloc: Global) -> SureSink
        ensures { ⟦<SureSink as Sink>⟧.written result ≡ Some [] }
    {
        SureSink {
            written: Vec::new(alloc),
        }
    }

    /// All that was written.
    pub fn written(&self) -> &[u8]
        ensures { ⟦<SureSink as Sink>⟧.written self.now ≡ Some result.now }
    {
        self.written.as_slice()
    }
}

impl Sink for SureSink {
    ghost written = { λ s. Some s.written.items };

    ghost faults = { λ _. 0 };

    fn put(&mut self, bytes: &[u8]) -> Result<(), SinkFail> {
        match self.written.extend_from_slice(bytes) {
            Ok(()) => Ok(()),
            Err(_) => Err(SinkFail::Memory),
        }
    }
}

/// Files in memory. The calls whose numbers, from 1, are in `fails` answer `Failed`, and so does a name that
/// isn't there. Of several files with one name the first counts.
#[derive(Drop)]
pub struct MemShelf {
    files: Vec<NamedBytes>,
    fails: Vec<u64>,
    calls: u64,
    failures: Failures,
    alloc: Global,
}

impl MemShelf {
    /// These files; the calls with these numbers, from 1, fail.
    pub fn new(alloc: Global, files: Vec<NamedBytes>, fails: Vec<u64>) -> MemShelf
        ensures content { (name : List ℕ) → ⟦<MemShelf as Shelf>⟧.content result name ≡ file_of files.items name }
        ensures faults { (name : List ℕ) → ⟦<MemShelf as Shelf>⟧.faults result name ≡ 0 }
        ensures fresh { IsNewShelf result fails.items }
    {
        MemShelf {
            files,
            fails,
            calls: 0,
            failures: Failures::new(alloc),
            alloc,
        }
    }
}

fn file_named<'a>(files: &'a [NamedBytes], name: &str) -> Option<&'a NamedBytes>
    ensures { option_copied result ≡ find (λ f. bytes_eq (string_bytes f.name) name.now) files.now }
{
    files.iter().find(|file| file.name.as_str() == name)
}

/// Copies the bytes, or one more of them than may be taken.
fn copy(bytes: &[u8], into: &mut Vec<u8>) -> Result<(), ShelfFail>
    requires { into.old.items ≡ [] }
    ensures taken { Takes (Some bytes.now) result into.new.items }
    ensures no_fault { IsErrOf result ShelfFail.Failed → ⊥ }
{
    if bytes.len() > LIMIT {
        return match into.extend_from_slice(&bytes[..LIMIT + 1]) {
            Ok(()) => Err(ShelfFail::Long),
            Err(_) => Err(ShelfFail::Memory),
        };
    }
    match into.extend_from_slice(bytes) {
        Ok(()) => Ok(()),
        Err(_) => Err(ShelfFail::Memory),
    }
}

impl Shelf for MemShelf {
    ghost content = { λ s name. file_of s.files.items name };

    ghost faults = { λ s name. failures_of s.failures name };

    fn take(&mut self, name: &str, into: &mut Vec<u8>) -> Result<(), ShelfFail>
        requires { into.old.items ≡ [] }
        ensures taken { Takes (file_of self.old.files.items name.now) result into.new.items }
        ensures cause { TakeCounts (failures_of self.old.failures name.now) (failures_of self.new.failures name.now) result }
        ensures later { (of : List ℕ) → failures_of self.old.failures of ≤ failures_of self.new.failures of }
        ensures others { (other : List ℕ) → other ≢ name.now → failures_of self.new.failures other ≡ failures_of self.old.failures other }
        ensures content { (of : List ℕ) → file_of self.new.files.items of ≡ file_of self.old.files.items of }
        ensures failed { FailsExactlyOrMemory (is_missed self.old name.now) result }
        ensures next { ShelfWentOn self.old self.new }
    {
        self.calls = self.calls.saturating_add(1);
        let Ok(noted) = self.failures.prepare(self.alloc, name) else {
            return Err(ShelfFail::Memory);
        };
        match file_named(&self.files, name) {
            Some(file) if !self.fails.contains(&self.calls) => copy(&file.bytes, into),
            _ => {
                self.failures.note(noted);
                Err(ShelfFail::Failed)
            }
        }
    }
}
