//! Unit propagation as a judge needs it: `truths` has which Booleans are true, and `units` reads clauses and hints under them.
#![tactic(auto)]

mod truths;
mod units;

pub use truths::Truths;
pub use units::{follows, is_broken};
