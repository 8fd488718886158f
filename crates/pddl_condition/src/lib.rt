//! Expressions and conditions, each read from a tree with exact faults: what actions and goals are made of.
//!
//! Begin with `read_expression`; `read_condition` stands on it.
#![tactic(auto)]

mod condition;
mod expression;
mod heads;
mod laws;

pub use condition::{CondAst, note_unread, read_condition, read_negated_atom};
pub use expression::{ExprAst, operators_rise, read_expression, read_number};
pub use heads::condition_heads_rise;
pub use laws::{one_condition, one_expression, unread_not_is_one_fault};
