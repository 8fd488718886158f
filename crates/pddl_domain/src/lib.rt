//! A domain as it is written: from a tree of words and lists to the domain's syntax, or the first fault of its shape.
//!
//! Begin with `read_domain`. Its sections are read one by one, each by a reader of its own that goes on behind a fault,
//! over each part that has a place there, and tells a `FirstFault` what it finds. What domain and problem share stands in
//! `pddl_form`.
#![tactic(auto)]

mod action;
mod domain;
mod effect;
mod effect_heads;
mod head;
mod laws;

pub use action::{ActionAst, action_keys_rise};
pub use domain::{DomainAst, one_domain, read_domain};
pub use effect::EffAst;
pub use effect_heads::effect_heads_rise;
pub use head::{Head, number_rises};
pub use laws::{functions_are_groups, parts_stand_in_turn};
pub use pddl_condition::{CondAst, ExprAst};
pub use pddl_form::{Spot, Typed};
