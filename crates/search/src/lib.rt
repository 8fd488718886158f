//! The search for a plan: the text of a task is printed block by block. Begin with `plan_up_to` in `searching`.
//!
//! `opening` makes the ground task and its pattern, `head` the lines in front of the blocks. A block is made whole before a line
//! of it is printed: `solving` solves its formula and keeps the lines of the log (`log_lines`), `plan` makes a plan of a point,
//! and `block` the lines from its number to its end. `going` prints one block behind another.
#![tactic(auto)]

mod block;
mod found;
mod going;
mod head;
mod instance;
mod log_lines;
mod opening;
mod plan;
mod putting;
mod searching;
mod solving;

pub use found::{Found, SearchFail};
pub use searching::plan_up_to;
