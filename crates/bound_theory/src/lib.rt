//! A small theory for tests of the clause core: bounds `v <= k` of counts. It clashes where two bounds exclude each other, and it
//! cuts, since its points lie between the whole numbers where the bounds leave them room. Begin with `Bounds` in `theory`.
//!
//! A point is guessed (`guessing`) and then tested (`testing`), so nothing is proved of the guess. Where the test fails, which no
//! row of a test has shown, the theory gives up.
#![tactic(auto)]

mod bound;
mod clashing;
mod guessing;
mod starting;
mod testing;
mod theory;

pub use theory::Bounds;
