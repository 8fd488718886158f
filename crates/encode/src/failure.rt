//! Why the formula isn't made.
use frac128::Wide;
use std::alloc::AllocError;
use thiserror::Error;

/// An operation that passes 128 bits in making a clause, with the clause's number, from 1.
#[derive(Clone, Copy, PartialEq, Eq, Debug, Error)]
#[error("in row {row}: {wide}")]
pub struct AtomWide {
    pub row: u64,
    pub wide: Wide,
}

/// An operation that passes 128 bits, or want of memory.
#[derive(Clone, Copy, PartialEq, Eq, Debug, Error)]
pub enum EncodeFail {
    #[error(transparent)]
    AtomWide(AtomWide),
    #[error("memory ran out")]
    Memory,
}

impl From<AllocError> for EncodeFail {
    ghost use Rattle.std.specs.Prelude.{◌≡◌};
    ghost use Rattle.encode.specs.declared.failure.EncodeFail.TheVariants as fail;

    ghost from_gives = { λ _ e. e ≡ fail.Memory };

    fn from(_error: AllocError) -> EncodeFail {
        EncodeFail::Memory
    }
}
