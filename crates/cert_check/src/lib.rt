//! The judge of certificates: the steps of a log, tested one after another against the formula so far. It shares the definitions
//! with the solver, and no code. Begin with `judging`; `testing` has the tests of a step.
#![tactic(auto)]

mod bad;
mod denial;
mod judging;
mod known;
mod testing;

pub use bad::Bad;
pub use judging::Judge;
