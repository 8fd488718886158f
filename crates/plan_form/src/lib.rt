//! Plans, their steps one by one, and how they are written: `write_plan`, and of single calls `write_call`.
#![tactic(auto)]

mod flat;
mod plan;
mod writing;

pub use flat::flat_len;
pub use plan::{Part, Plan};
pub use writing::{write_call, write_part, write_plan};
