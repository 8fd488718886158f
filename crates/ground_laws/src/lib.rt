//! The ground task of a task, as a function of the task alone. Begin with `Result` in `specs/`; `laws` says what it is to the
//! task.
#![tactic(auto)]

pub mod laws;
