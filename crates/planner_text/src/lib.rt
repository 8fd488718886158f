//! What the planner's text says: definitions and laws. `specs/Text` has the values of a text and what they say, `specs/Lines` how
//! they are written, and `laws` what a text means for plans.
#![tactic(auto)]

pub mod laws;
mod limits;

pub use limits::Limits;
