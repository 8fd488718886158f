//! Is a plan valid? `judge_plan` makes the steps of its parts from the initial state, and tests the goal after them.
//!
//! `outcome` is what comes out, and `laws` says what it means by PDDL 2.1, in unlimited fractions.
#![tactic(auto)]

mod judging;
pub mod laws;
mod outcome;

pub use judging::judge_plan;
pub use outcome::{Outcome, PartFail};
