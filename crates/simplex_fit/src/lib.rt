//! What a simplex keeps of a formula. Begin with `fitted`: the tableau of its rows, and the variable and the bounds of each atom.
//! `splitting` has those of one more atom, and `assigned` the asserted literals by Boolean.
#![tactic(auto)]

mod assigned;
mod copying;
mod fitting;
mod splitting;

pub use assigned::{literals, signs};
pub use copying::without_clauses;
pub use fitting::{Fit, fitted};
pub use splitting::split_sides;
