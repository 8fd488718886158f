//! Ground tasks: numbered atoms, numbered functions, and actions whose conditions and effects are linear. From here on
//! nothing knows PDDL. Begin with `GAction` in `action` and `GroundTask` in `task`; then `rollable` says which actions
//! may be repeated at once, and `laws` what follows from the definitions in `specs/`.
#![tactic(auto)]

mod action;
pub mod laws;
mod rolling;
mod task;

pub use action::GAction;
pub use rolling::rollable;
pub use task::GroundTask;

#[cfg(test)]
mod tests;
