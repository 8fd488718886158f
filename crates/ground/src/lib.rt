//! Grounding: a task becomes a ground task. Begin with `ground`: it walks through all instances, then takes the goal, and
//! concludes when each atom is known.
#![tactic(auto)]

mod concluding;
mod finishing;
mod function;
mod goal;
mod grounded;
mod grounding;
mod starting;
mod walking;
mod working;

pub use function::GroundFunc;
pub use ground_entry::GroundFail;
pub use grounded::Grounded;
pub use grounding::ground;
