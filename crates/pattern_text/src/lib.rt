//! The lines of a pattern, with which a planner's text begins: begin with `write_header` and `write_place`. Where the layers are
//! refused the text has the line of `write_range` in their place. `laws` says that the instances of a task can be written.
#![tactic(auto)]

mod laws;
mod lines;

pub use laws::kept_instances_are_calls;
pub use lines::{write_header, write_place, write_range};
