//! Grounding, instance by instance: an instance is tested, what it names gets numbers, its draft is made, and it is kept or
//! leaves no trace. Begin with `Walk`, which holds what is so far; `walk_instance` takes one instance, and `walk_action` all
//! those of an action, in rising order of their argument lists.
#![tactic(auto)]

mod action;
mod failure;
mod instance;
mod keeping;
mod walk;

pub use action::walk_action;
pub use failure::GroundFail;
pub use walk::Walk;
