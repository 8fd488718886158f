//! Failures of a step.
ghost use Rattle.std.specs.Prelude.{◌≡◌};

use frac128::Wide;
use std::alloc::AllocError;
use thiserror::Error;

/// Why a step of an instance isn't made. Leaves are numbered from 0, in text order.
#[derive(Debug, Drop, Error)]
pub enum StepFail {
    /// The action isn't there, or takes another number of arguments.
    #[error("the action isn't there, or takes another number of arguments")]
    Arity,
    /// An argument isn't an object, or isn't of its parameter's types.
    #[error("an argument isn't of its parameter's types")]
    ArgType,
    /// This leaf of the condition is the first that doesn't hold.
    #[error("leaf {0} of the condition doesn't hold")]
    Condition(u32),
    /// This leaf of the effect is the first that needs a value that isn't there.
    #[error("leaf {0} of the effect needs a value that isn't there")]
    NoValue(u32),
    /// This leaf of the effect is the first that changes a function which an earlier one changes, not both by
    /// `increase` or `decrease`.
    #[error("leaf {0} of the effect clashes with an earlier one")]
    Clash(u32),
    /// This operation of the evaluation passes 128 bits.
    #[error(transparent)]
    Wide(Wide),
    #[error("out of memory")]
    Memory,
}

impl From<AllocError> for StepFail {
    ghost use Rattle.plan_step.specs.declared.failure.StepFail.TheVariants as fail;

    ghost from_gives = { λ _ e. e ≡ fail.Memory };

    fn from(_error: AllocError) -> StepFail {
        StepFail::Memory
    }
}

impl From<Wide> for StepFail {
    ghost use Rattle.plan_step.specs.declared.failure.StepFail.TheVariants as fail;

    ghost from_gives = { λ w e. e ≡ fail.Wide w };

    fn from(wide: Wide) -> StepFail {
        StepFail::Wide(wide)
    }
}
