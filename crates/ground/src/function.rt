//! The ground function with a number.
use sqlite_items::Items;

/// A function at objects, all by their numbers in the task.
#[derive(Debug, Drop)]
pub struct GroundFunc {
    pub func: u32,
    pub args: Items<u32>,
}
