//! An operation that passes 128 bits, as every program prints it: begin with `write_operation`.
#![tactic(auto)]

mod operation;

pub use operation::write_operation;
