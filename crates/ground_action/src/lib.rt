//! The parts of one instance: whether it is kept, and its ground action; and the ground goal. Begin with `GroundAction` in
//! `specs/`; `laws` says what a ground action is to its instance.
#![tactic(auto)]

pub mod laws;
