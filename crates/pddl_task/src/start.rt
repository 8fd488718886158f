//! What is given at the start.
use frac128::Frac;
use sqlite_items::Items;

/// An atom that is true at the start.
#[derive(Debug, Drop)]
pub struct Fact {
    pub pred: u32,
    pub args: Items<u32>,
}

/// The value of a function at the start.
#[derive(Debug, Drop)]
pub struct Given {
    pub func: u32,
    pub args: Items<u32>,
    pub value: Frac,
}
