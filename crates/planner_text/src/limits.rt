//! How far the planner goes.

/// The greatest number of copies of the pattern, the steps of a log and the pivots of a check.
#[derive(Clone, Copy, Debug, PartialEq, Eq)]
pub struct Limits {
    pub max_n: u32,
    pub steps: u64,
    pub pivots: u64,
}
