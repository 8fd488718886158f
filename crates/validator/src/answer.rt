//! What the validator answers.
use plan_judge::Outcome;

/// What a task and a plan's text come to.
#[derive(Debug, Drop)]
pub enum Answer {
    /// The plan's text is refused, for its first fault: its kind, and its place as a byte offset from 0.
    PlanFault { kind: u8, place: u32 },
    /// The plan is judged; it has so many steps.
    Judged { outcome: Outcome, steps: u128 },
}
