//! A tableau: each basic variable as a linear sum of the non-basic ones. Begin with `Tableau` in `tableau`; `start` makes the
//! first one, `row` has the two steps of a pivot on one row and `filling` those on all, `basis` lists the basic variables,
//! and `laws` say what the equations of a tableau fix.
#![tactic(auto)]

mod basis;
mod exchange;
mod filling;
pub mod laws;
mod number;
mod row;
mod start;
mod tableau;

pub use tableau::Tableau;
