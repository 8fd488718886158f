//! The names of a domain and of a problem: what they declare, with numbers for names, or the faults of their names.
//!
//! Begin with `resolve_domain`, then `resolve_problem`. Each goes on behind a fault, and tells a `FirstFault` what it finds.
//! Names in use stand below, in `typing_uses`.
#![tactic(auto)]

mod actions;
mod declare;
mod declared;
mod domain;
mod fault;
mod item;
mod problem;
mod spaces;
mod type_names;

pub use declare::add_name;
pub use domain::{DomainNames, Tables, resolve_domain};
pub use item::Item;
pub use problem::{ProblemNames, resolve_problem};
