//! What a search for a plan answers.
use ground::GroundFail;
use plan_form::Plan;
use thiserror::Error;

/// How the text that was printed ends. An answer in front of the pattern has 0 blocks and 0 places.
#[derive(Debug, Drop)]
pub enum Found {
    /// A valid plan that is a word of n copies of the pattern; fewer copies have none.
    Plan { n: u32, plan: Plan, places: u32 },
    /// No word of the greatest number of copies is a valid plan.
    NoPlan { places: u32 },
    /// Whether a word of n copies is a valid plan was left open.
    Unknown { n: u32, places: u32 },
}

/// Why no text is printed to its end.
#[derive(Debug, Drop, Error)]
pub enum SearchFail {
    /// Grounding refuses the task, and nothing is written.
    #[error(transparent)]
    Ground(GroundFail),
    /// The ground task has numbers, which aren't planned for yet, and nothing is written.
    #[error("the task has numbers")]
    NotBuilt,
    /// A line couldn't be written.
    #[error("a line can't be written")]
    Sink,
    #[error("out of memory")]
    Memory,
}
