//! States of a plan and the steps of instances, by definition. Begin with `step`; `State` has the atoms and the values,
//! `evaluate` the value of an expression, and `goal` the test of the goal. What makes many steps at once stands on `make`, whose
//! touches tell what a step changes and what was there before, and on `restore`.
#![tactic(auto)]

mod application;
mod clashes;
mod conditions;
mod evaluation;
mod failure;
mod instance;
pub mod laws;
mod reading;
mod state;
mod stepping;
mod terms;
mod touches;

pub use application::restore;
pub use conditions::{goal, test_conditions};
pub use evaluation::evaluate;
pub use failure::StepFail;
pub use instance::fitting_action;
pub use reading::holds_atom;
pub use state::State;
pub use stepping::{make, step};
pub use touches::Touch;
