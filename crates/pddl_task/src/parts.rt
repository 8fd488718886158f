//! The parts of a task. Begin with `TaskParts`.
use crate::action::Action;
use crate::condition::Cond;
use crate::declared::{Object, Signature, TypeName};
use crate::start::{Fact, Given};
use sqlite_items::Items;

/// Each list is numbered from 0. The type 0 is `object`; objects are the constants in text order and then the problem's
/// objects; facts and values are the items of the initial state, in text order.
#[derive(Debug, Drop)]
pub struct TaskParts {
    pub types: Items<TypeName>,
    pub objects: Items<Object>,
    pub preds: Items<Signature>,
    pub funcs: Items<Signature>,
    pub actions: Items<Action>,
    pub facts: Items<Fact>,
    pub values: Items<Given>,
    pub goal: Items<Cond>,
}
