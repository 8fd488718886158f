//! Why a plan's text is refused.
ghost use Rattle.std.specs.Prelude.{◌≡◌};

use std::alloc::AllocError;
use thiserror::Error;

/// The first fault of a plan's text: its kind as a number and its place as a byte offset from 0; or want of memory.
#[derive(Debug, Drop, Error)]
pub enum PlanRefusal {
    #[error("fault {kind} at byte {place}")]
    Fault { kind: u8, place: u32 },
    #[error("out of memory")]
    Memory,
}

impl From<AllocError> for PlanRefusal {
    ghost use Rattle.plan_text.specs.declared.refusal.PlanRefusal.TheVariants.{Memory};

    ghost from_gives = { λ _ e. e ≡ Memory };

    fn from(_: AllocError) -> Self {
        PlanRefusal::Memory
    }
}
