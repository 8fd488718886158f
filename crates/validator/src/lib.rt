//! The validator as a library: what its program does with its words, its files and its output.
//!
//! Begin with `val_run`, the top call. It comes to a verdict on the words, the files, the texts and the plan (`judging`),
//! and prints that verdict's line (`lines`, `printing`). The program `patty_val` makes the adapters to the system for it.
#![tactic(auto)]

mod answer;
mod judging;
mod lines;
mod printing;
mod program;
#[cfg(test)]
mod tests;

pub use answer::Answer;
pub use program::val_run;
