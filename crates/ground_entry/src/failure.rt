//! Why a task isn't grounded.
ghost use Rattle.std.specs.Prelude.{◌≡◌};

use frac128::Wide;
use lin::LinFail;
use std::alloc::AllocError;
use thiserror::Error;

/// More instances are kept than may be, an operation passes 128 bits, or want of memory.
#[derive(Clone, Copy, Debug, PartialEq, Eq, Error)]
pub enum GroundFail {
    #[error("more instances are kept than may be")]
    Many,
    #[error(transparent)]
    CoefWide(Wide),
    #[error("out of memory")]
    Memory,
}

impl From<AllocError> for GroundFail {
    ghost use Rattle.ground_entry.specs.declared.failure.GroundFail.TheVariants as fail;

    ghost from_gives = { λ _ e. e ≡ fail.Memory };

    fn from(_error: AllocError) -> GroundFail {
        GroundFail::Memory
    }
}

impl From<LinFail> for GroundFail {
    ghost use Rattle.ground_entry.specs.Refusals.{refusal_of};

    ghost from_gives = { λ f e. e ≡ refusal_of f };

    fn from(fail: LinFail) -> GroundFail {
        match fail {
            LinFail::Wide(wide) => GroundFail::CoefWide(wide),
            LinFail::Memory => GroundFail::Memory,
        }
    }
}
