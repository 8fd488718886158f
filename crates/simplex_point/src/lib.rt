//! A point from the values of a configuration in which nothing is violated. Begin with `infinitesimal`; `at_small` gives the
//! values at it, and `laws` say that they meet the bounds.
#![tactic(auto)]

pub mod laws;
mod number;
mod small;

pub use small::{at_small, infinitesimal};
