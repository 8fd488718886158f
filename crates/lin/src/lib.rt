//! Linear expressions over exact fractions. Begin with `Lin` in `linear`; then `sum`, `multiple`, `quotient` and
//! `substitution`, which answer the exact result or the first operation that passes 128 bits, and `laws`, which say what
//! the results mean.
#![tactic(auto)]

mod comparison;
mod failure;
pub mod laws;
mod linear;
mod multiple;
mod negative;
mod quotient;
mod substitution;
mod sum;

pub use comparison::Cmp;
pub use failure::LinFail;
pub use linear::Lin;
