//! Why a step isn't taken.
ghost use Rattle.std.specs.Prelude.{◌≡◌};

use frac128::Wide;
use lin::LinFail;
use std::alloc::AllocError;
use thiserror::Error;

/// The first test that fails.
#[derive(Clone, Copy, Debug, PartialEq, Eq, Error)]
pub enum Bad {
    #[error("the step names what isn't there")]
    Known,
    #[error("the coefficients don't show the lemma")]
    Farkas,
    #[error("the clause doesn't follow by its hints")]
    Hint,
    #[error("the step isn't licensed")]
    Licence,
    /// The first operation of the test that passes 128 bits.
    #[error(transparent)]
    Wide(Wide),
    #[error("out of memory")]
    Memory,
}

impl From<AllocError> for Bad {
    ghost use Rattle.cert_check.specs.declared.bad.Bad.TheVariants as bad;

    ghost from_gives = { λ _ e. e ≡ bad.Memory };

    fn from(_error: AllocError) -> Bad {
        Bad::Memory
    }
}
