//! The walk of grounding: which instances are kept, and which ground atoms and functions have which numbers, as a function of
//! the task alone, so that each run comes to the same numbers. Begin with `Walk` in `specs/`; `laws` says what grounding needs
//! of it.
#![tactic(auto)]

pub mod laws;
