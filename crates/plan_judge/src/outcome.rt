//! What judging a plan comes to.
use frac128::Wide;
use plan_repeat::RepeatFail;

/// The first part of a plan that fails, numbered from 1, with the repetition and the reason.
#[derive(Debug, Drop)]
pub struct PartFail {
    pub part: u64,
    pub fail: RepeatFail,
}

#[derive(Debug, Drop)]
pub enum Outcome {
    Valid,
    /// A part has no run, or an operation of one passes 128 bits.
    PartFails(PartFail),
    /// The goal doesn't hold after the last part.
    GoalFails,
    /// This operation of the goal's test passes 128 bits.
    GoalWide(Wide),
}
