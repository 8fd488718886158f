//! The formula of n copies of a pattern and what it says: some point meets it exactly where a word of n copies is a valid plan.
//! Its rows, its numbers and the operations that are named in making it are defined in `specs/`, and `laws` says what they mean.
#![tactic(auto)]

pub mod laws;
