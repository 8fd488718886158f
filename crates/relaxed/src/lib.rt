//! Relaxed layers: what may be true, what may be false, and what each function may be, if deletions and bounds are
//! relaxed. An action that no layer supports has no step in any reachable state. The definitions are in `specs/`, and
//! `laws` says what follows from them.
#![tactic(auto)]

mod failure;
mod interval;
pub mod laws;
mod making;
mod next;
mod range;
mod reaching;
mod same;
mod start;
mod support;
mod table;
mod testing;
mod widening;

pub use failure::{LayerFail, RangePart, RangeWide};
pub use making::{Layers, layers_of};
