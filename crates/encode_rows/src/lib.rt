//! The parts of one occurrence in the formula of n copies, whose definition and laws are in `encode_laws`. A comparison is a bound
//! (`bound`), the bound a numbered literal (`literal`), a row of literals a clause (`clause`). Of these are made: the beginning of
//! an occurrence, the literals and comparisons that it needs, the truths of atoms and the values of functions behind it. Each call
//! says which items of the definition it makes, whatever was made before.
#![tactic(auto)]

mod beginning;
mod bound;
mod change;
mod changes;
mod clause;
mod comparison;
mod growing;
mod lasting;
mod literal;
mod rounding;
mod row;
mod setting;
mod symbols;

pub use beginning::begin;
pub use changes::change_all;
pub use clause::Truth;
pub use comparison::compare_all;
pub use growing::renew;
pub use lasting::compare_all_last;
pub use row::{ask_all, opposite};
pub use setting::set_all;
pub use symbols::Symbols;
