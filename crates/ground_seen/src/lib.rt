//! The ground atoms and functions that facts, given values, instances and the goal of a task name, entered into tables in text
//! order: each that is new there gets the next number. Begin with `Tables`, whose methods see one after another.
#![tactic(auto)]

mod changing;
mod expression;
mod leaves;
mod tables;

pub use tables::Tables;
