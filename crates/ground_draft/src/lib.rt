//! The program's half of grounding one instance: whether it is kept, and its ground action as far as it is known before all
//! atoms are; and the goal likewise. Begin with `Draft` and `instance_draft`; `laws` says how a draft becomes the ground
//! action.
#![tactic(auto)]

mod draft;
mod goal;
mod instance;
pub mod laws;
mod leaves;
mod lists;
mod moves;
mod reads;
mod rising;
mod rows;

pub use draft::Draft;
pub use goal::goal_draft;
pub use instance::instance_draft;
