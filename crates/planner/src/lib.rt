//! The planner as a library: what its program does with its words, its files and its output.
//!
//! Begin with `plan_run`, the top call. It reads the words (`words`) and the files, and prints what comes of the task
//! (`answering`): the text of the search, or why there is none. The program `patty` makes the adapters to the system for it.
#![tactic(auto)]

mod answering;
mod program;
#[cfg(test)]
mod tests;
mod words;

pub use program::plan_run;
