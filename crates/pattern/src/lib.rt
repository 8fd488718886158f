//! The pattern of a ground task: its actions in the order in which relaxed layers first support them. What doesn't stand
//! in it occurs in no plan, and a plan of n steps is a word of n copies of it. `holds_rolled` tests an action that is
//! repeated, and `word_of` makes the word that counts of places spell. The definitions are in `specs/`, and `laws` says
//! what follows from them.
#![tactic(auto)]

pub mod laws;
mod pattern;
mod rolling;
mod word;

pub use pattern::{Pattern, pattern_of};
pub use rolling::holds_rolled;
pub use word::{Word, word_of};
