//! The syntax of a problem, with places.
use frac128::Frac;
use pddl_condition::CondAst;
use pddl_form::{Spot, Typed};
use sqlite_items::Items;

/// An item of the initial state, with the place of its first byte.
#[derive(Debug, Drop)]
pub enum InitAst {
    /// An atom that is true at the start, or where `pos` is false one that isn't.
    Put {
        pos: bool,
        name: Spot,
        args: Items<Spot>,
        place: u32,
    },
    /// The value of a function at the start.
    Value {
        name: Spot,
        args: Items<Spot>,
        value: Frac,
        place: u32,
    },
}

/// A problem as it is written. The goal is the list of its leaves in text order.
#[derive(Debug, Drop)]
pub struct ProblemAst {
    pub name: Spot,
    pub domain: Spot,
    pub objects: Items<Typed>,
    pub init: Items<InitAst>,
    pub goal: Items<CondAst>,
}
