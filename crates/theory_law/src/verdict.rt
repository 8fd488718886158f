//! What a theory answers.
use crate::trace::Trace;
use formula::Clause;
use frac128::Frac;
use std::alloc::AllocError;
use thiserror::Error;

/// The answer of a check, with a `W` that shows the clause of a clash.
#[derive(Drop)]
pub enum Verdict<W> {
    /// Some point meets the asserted readings.
    Fits,
    /// No point with whole counts does. Each literal of the clause is the opposite of an asserted one.
    Clash { clause: Clause, why: W },
    /// Some point does, but the count `var` isn't whole there: `k < var < k + 1`.
    Cut { var: u64, k: Frac },
}

/// Why a check doesn't answer.
#[derive(Debug, Drop, Error)]
pub enum TheoryFail {
    #[error("an operation passes 128 bits")]
    Wide(Trace),
    #[error("the pivots of a check are spent")]
    Pivots(Trace),
    #[error("out of memory")]
    Memory,
}

/// Why a theory doesn't start on a formula.
#[derive(Debug, Drop, Error)]
pub enum StartFail {
    /// The first Boolean whose atom this theory doesn't take.
    #[error("the atom of Boolean {0} isn't of this theory")]
    NotMine(u64),
    #[error("out of memory")]
    Memory,
}

impl From<AllocError> for StartFail {
    ghost use Rattle.std.specs.Prelude.{◌≡◌};
    ghost use Rattle.theory_law.specs.declared.verdict.StartFail.TheVariants as fail;

    ghost from_gives = { λ _ e. e ≡ fail.Memory };

    fn from(_error: AllocError) -> StartFail {
        StartFail::Memory
    }
}

impl From<AllocError> for TheoryFail {
    ghost use Rattle.std.specs.Prelude.{◌≡◌};
    ghost use Rattle.theory_law.specs.declared.verdict.TheoryFail.TheVariants as fail;

    ghost from_gives = { λ _ e. e ≡ fail.Memory };

    fn from(_error: AllocError) -> TheoryFail {
        TheoryFail::Memory
    }
}
