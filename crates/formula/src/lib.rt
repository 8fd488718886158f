//! The language of refutations: clauses over Booleans, each a truth variable or an atom, which is a bound on a linear
//! expression. Begin with `Atom`, then `Formula`.
#![tactic(auto)]

mod atom;
mod clause;
mod farkas;
mod formula;
mod key;
pub mod laws;
mod meeting;
mod point;
mod reading;
mod split;

pub use atom::{Atom, Constraint, Lit};
pub use clause::Clause;
pub use formula::Formula;
pub use point::Point;
