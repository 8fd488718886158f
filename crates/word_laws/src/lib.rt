//! Words of n copies of a pattern and the counts that spell them: which words are words of n copies. Begin with `Counts` in
//! `specs/`; `laws` says what follows.
#![tactic(auto)]

pub mod laws;
