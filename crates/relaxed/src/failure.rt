//! Why layers aren't made.
ghost use Rattle.std.specs.Prelude.{◌≡◌};

use frac128::Wide;
use std::alloc::AllocError;
use thiserror::Error;

/// The part of an action whose range is taken: a place in its comparisons, or in its new values.
#[derive(Clone, Copy, PartialEq, Eq, Debug)]
pub enum RangePart {
    Cond(u32),
    Set(u32),
}

/// An operation that passes 128 bits in taking a range, with the layer, the action and the part that it belongs to.
#[derive(Clone, Copy, PartialEq, Eq, Debug, Error)]
#[error("in layer {layer}, action {action}, {part:?}: {wide}")]
pub struct RangeWide {
    pub layer: u64,
    pub action: u32,
    pub part: RangePart,
    pub wide: Wide,
}

/// An operation that passes 128 bits, or want of memory.
#[derive(Clone, Copy, PartialEq, Eq, Debug, Error)]
pub enum LayerFail {
    #[error(transparent)]
    RangeWide(RangeWide),
    #[error("memory ran out")]
    Memory,
}

/// The operation of a part, where its place can be told.
pub(crate) fn passing(layer: u64, action: u32, part: RangePart, wide: Wide) -> LayerFail
    ensures { result ≡ LayerFail.RangeWide (record { layer = layer; action = action; part = part; wide = wide }) }
{
    LayerFail::RangeWide(RangeWide {
        layer,
        action,
        part,
        wide,
    })
}

impl From<AllocError> for LayerFail {
    ghost use Rattle.relaxed.specs.declared.failure.LayerFail.TheVariants as fail;

    ghost from_gives = { λ _ e. e ≡ fail.Memory };

    fn from(_error: AllocError) -> LayerFail {
        LayerFail::Memory
    }
}
