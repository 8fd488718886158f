//! Why so many steps of an instance aren't made.
use plan_step::StepFail;
use thiserror::Error;

/// The first repetition that fails, from 1, and why. Where memory is wanting `at` says nothing.
#[derive(Debug, Drop, Error)]
#[error("repetition {at}: {fail}")]
pub struct RepeatFail {
    pub at: u128,
    pub fail: StepFail,
}
