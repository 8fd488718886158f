//! Plans read from texts: `read_plan` reads the plan that a text spells, or answers its first fault.
//!
//! A text is read line by line. `piece` finds the words and parentheses of a line, `part` makes of them a part of a plan
//! by the tables of `names`, `line` has the other faults of a line, and `reading` goes over the lines. `laws` has the way
//! back: what is written of a plan is read as the plan.
#![tactic(auto)]

mod count;
mod fault;
mod laws;
mod line;
mod names;
mod numbers;
mod part;
mod piece;
mod reading;
mod refusal;

pub use laws::{first_fault_is_least, written_plan_is_read};
pub use reading::read_plan;
pub use refusal::PlanRefusal;
