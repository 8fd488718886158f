//! Names in use: in terms, expressions, conditions and effects, with numbers for names, or the faults of names that aren't
//! declared.
//!
//! Begin with `find_name`; `Names` are the tables of what is declared.
#![tactic(auto)]

mod conditions;
mod effects;
mod expressions;
mod fault;
mod scope;

pub use conditions::{relations_rise, resolve_condition, resolve_conditions};
pub use effects::{changes_rise, resolve_effect, resolve_effects};
pub use expressions::{operators_rise, resolve_call, resolve_expression};
pub use fault::note;
pub use scope::{Names, find_name, find_names, find_term, find_terms};
