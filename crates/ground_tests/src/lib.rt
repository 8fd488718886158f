//! The tests of an instance that come before any of its expressions: it is clean, its static literals and its equalities
//! hold, and the static functions that it reads have values. Begin with `begun`.
#![tactic(auto)]

mod begin;
mod clean;
mod literals;
mod values;

pub use begin::begun;
pub use literals::signed;
pub use values::condition_has_values;
