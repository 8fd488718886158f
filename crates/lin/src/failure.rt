//! Why a call on linear expressions has no result.
ghost use Rattle.std.specs.Prelude.{◌≡◌};

use frac128::Wide;
use std::alloc::AllocError;
use thiserror::Error;

/// The first operation of the call that passes 128 bits, or want of memory.
#[derive(Clone, Copy, Debug, PartialEq, Eq, Error)]
pub enum LinFail {
    #[error(transparent)]
    Wide(Wide),
    #[error("out of memory")]
    Memory,
}

impl From<AllocError> for LinFail {
    ghost use Rattle.lin.specs.declared.failure.LinFail.TheVariants as fail;

    ghost from_gives = { λ _ e. e ≡ fail.Memory };

    fn from(_error: AllocError) -> LinFail {
        LinFail::Memory
    }
}

impl From<Wide> for LinFail {
    ghost use Rattle.lin.specs.declared.failure.LinFail.TheVariants as fail;

    ghost from_gives = { λ w e. e ≡ fail.Wide w };

    fn from(wide: Wide) -> LinFail {
        LinFail::Wide(wide)
    }
}
