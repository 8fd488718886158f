//! Bounds with an infinitesimal part, the configurations of the simplex and Bland's rule: definitions and laws, with the few
//! tests on values that code needs. Begin with `Pair` in `pair` and `Bound` in `bound`; `specs/Config` has configurations and
//! the rule, `laws` what follows.
#![tactic(auto)]

mod bound;
pub mod laws;
mod number;
mod pair;

pub use bound::{Bound, Side, can_fall, can_rise, is_over, is_under};
pub use pair::Pair;
