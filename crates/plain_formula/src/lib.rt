//! Ground tasks without numbers: their formulas have truth variables alone. Begin with `is_plain_task`; `laws` says what it means
//! for the formula of n copies of a pattern.
#![tactic(auto)]

mod laws;
mod plain;

pub use laws::plain_formula_has_no_atom;
pub use plain::is_plain_task;
