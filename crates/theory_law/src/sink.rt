//! Who takes the steps of a log.
ghost use Rattle.std.specs.Prelude.{◌≤◌, ℕ, List, IsErrOf};

use crate::log::LogStep;
use std::alloc::AllocError;
use thiserror::Error;

/// Why a step isn't taken.
#[derive(Debug, Drop, Error)]
pub enum LogFail {
    /// The outside failed.
    #[error("the log can't be written")]
    Failed,
    #[error("out of memory")]
    Memory,
}

impl From<AllocError> for LogFail {
    ghost use Rattle.std.specs.Prelude.{◌≡◌};
    ghost use Rattle.theory_law.specs.declared.sink.LogFail.TheVariants as fail;

    ghost from_gives = { λ _ e. e ≡ fail.Memory };

    fn from(_error: AllocError) -> LogFail {
        LogFail::Memory
    }
}

/// Takes the steps of a log one after another.
pub trait LogSink<W> {
    ghost use Rattle.theory_law.specs.declared.log.LogStep.{LogStep};
    ghost use Rattle.theory_law.specs.Sinks.{SinkAfter, Rose};

    /// How often the outside failed. It never falls.
    ghost faults: { Self → ℕ };

    /// The sink holds this list of steps.
    ghost stands_for: { Self → List (LogStep W) → Type 0 };

    /// The sink held this list when it failed in this step.
    ghost stopped_in: { Self → List (LogStep W) → LogStep W → Type 0 };

    fn step(&mut self, s: &LogStep<W>) -> Result<(), LogFail>
        ensures later { faults self.old ≤ faults self.new }
        ensures failed { IsErrOf result LogFail.Failed → Rose (faults self.old) (faults self.new) }
        ensures list { (l : List (LogStep W)) → stands_for self.old l → SinkAfter (stands_for self.new) (stopped_in self.new) l s.now result };
}
