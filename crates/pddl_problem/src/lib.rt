//! A problem as it is written: from a tree of words and lists to the problem's syntax, with exact faults.
//!
//! Begin with `read_problem`. Its sections are read one by one by `read_parts`, each by a reader of its own, and the
//! items of the initial state by `read_inits`. What domain and problem share stands in `pddl_form`.
#![tactic(auto)]

mod ast;
mod init;
mod laws;
mod problem;

pub use ast::{InitAst, ProblemAst};
pub use init::init_heads_rise;
pub use laws::one_problem;
pub use problem::read_problem;
