//! Files by their names.
//!
//! A shelf has two meanings for each name: what the file holds, where the shelf tells it, and how often taking
//! the file has failed. The second never falls, so a caller that saw a failure can point at the count that rose.
ghost use Rattle.std.specs.Prelude.{◌≡◌, ◌≢◌, ℕ, List, [], ◌≤◌};
ghost use Rattle.std.specs.declared.option.Option.{Option};
ghost use Rattle.patty_io.specs.Shelf.{Takes, TakeCounts};

use thiserror::Error;

/// The length of the longest file that is taken, in bytes: 64 MiB. Each place in a text, and the number of each thing that
/// it names, then fits in 32 bits, and a file without an end takes bounded memory.
pub const LIMIT: usize = 67_108_864;

/// Why a file wasn't taken.
#[derive(Clone, Copy, Debug, PartialEq, Eq, Error)]
pub enum ShelfFail {
    /// It couldn't be read.
    #[error("the file can't be read")]
    Failed,
    /// It has more than `LIMIT` bytes.
    #[error("the file has more than {LIMIT} bytes")]
    Long,
    /// Memory ran out.
    #[error("out of memory")]
    Memory,
}

/// A place that files are taken from.
pub trait Shelf: Drop {
    /// What the file of a name holds, where the shelf tells it.
    ghost content: { Self → List ℕ → Option (List ℕ) };

    /// How often taking a name has failed.
    ghost faults: { Self → List ℕ → ℕ };

    /// Takes a file whole. After `Long`, `into` has one byte more than `LIMIT`, which shows it; after
    /// `Failed` and `Memory` nothing is known of `into`.
    fn take(&mut self, name: &str, into: &mut Vec<u8>) -> Result<(), ShelfFail>
        requires { into.old.items ≡ [] }
        ensures taken { Takes (content self.old name.now) result into.new.items }
        ensures cause { TakeCounts (faults self.old name.now) (faults self.new name.now) result }
        ensures later { (of : List ℕ) → faults self.old of ≤ faults self.new of }
        ensures others { (other : List ℕ) → other ≢ name.now → faults self.new other ≡ faults self.old other }
        ensures content { (of : List ℕ) → content self.new of ≡ content self.old of };
}
