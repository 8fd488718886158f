//! The task that a domain and a problem come to: names have become numbers, each in range.
//!
//! Begin with `Task`. What it is made of is plain data, which contracts see with the same variants and fields.
#![tactic(auto)]

mod action;
mod condition;
mod declared;
mod effect;
mod expression;
mod instance;
mod parts;
mod start;
mod task;

pub use action::Action;
pub use condition::{Cond, Rel};
pub use declared::{Object, Signature, TypeName};
pub use effect::{Effect, NumOp};
pub use expression::{Expr, Term};
pub use instance::Instance;
pub use parts::TaskParts;
pub use start::{Fact, Given};
pub use task::Task;
