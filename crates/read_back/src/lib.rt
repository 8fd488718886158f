//! What is written of a plan of two texts' task is read as the plan: laws over the definitions of texts, names and plans.
#![tactic(auto)]

mod laws;

pub use laws::{plan_of_task_is_read, task_names_are_spelled};
