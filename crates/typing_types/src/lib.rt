//! Types: the passes over a domain and over a problem in which each argument fits where it stands, no type stands above
//! itself, and nothing is given twice with another sign or another value.
//!
//! Begin with `Known`, what the passes know by the names, then `judge_domain_types` and `judge_problem_types`.
#![tactic(auto)]

mod fit;
mod given;
mod types;

pub use fit::Known;
pub use given::judge_problem_types;
pub use types::judge_domain_types;
