//! Where lines go.
//!
//! A sink has two meanings: all that was written, where the sink tells it, and how often a write has failed.
ghost use Rattle.std.specs.Prelude.{◌≡◌, ℕ, List};
ghost use Rattle.std.specs.declared.option.Option.{Option};
ghost use Rattle.patty_io.specs.Sink.{Puts, PutCounts};

use thiserror::Error;

/// Why a piece wasn't written whole.
#[derive(Clone, Copy, Debug, PartialEq, Eq, Error)]
pub enum SinkFail {
    /// The outside took only a front of it, perhaps nothing.
    #[error("the piece can't be written")]
    Failed,
    /// Memory ran out, and nothing of it was written.
    #[error("out of memory")]
    Memory,
}

/// A place that pieces of text are written to.
pub trait Sink: Drop {
    /// All that was written, where the sink tells it.
    ghost written: { Self → Option (List ℕ) };

    /// How often a write has failed.
    ghost faults: { Self → ℕ };

    /// Writes a piece behind what was written.
    fn put(&mut self, bytes: &[u8]) -> Result<(), SinkFail>
        ensures bytes { Puts (written self.old) (written self.new) result bytes.now }
        ensures cause { PutCounts (faults self.old) (faults self.new) result };
}
