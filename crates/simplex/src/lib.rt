//! The simplex as a theory of the clause core. Begin with `judge`, a check of what is asserted; `conclude` has its answer from where
//! the pivots led, `settle` that where nothing is violated and every atom is decided.
#![tactic(auto)]

mod concluding;
mod judging;
mod settling;

pub use concluding::conclude;
pub use judging::judge;
pub use settling::settle;
