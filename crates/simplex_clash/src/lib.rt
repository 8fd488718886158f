//! The lemma of a clash: from a row of the simplex that is stuck, or from two bounds that cross, to the literals whose
//! readings refute each other, with their Farkas coefficients. Begin with `stuck` and `crossing` in `clash`.
#![tactic(auto)]

mod clash;
mod gathering;
mod number;
mod ordering;

pub use clash::{crossing, stuck};
