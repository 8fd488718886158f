//! Instances of actions.
use sqlite_items::Items;

/// An action with an object for each parameter, all by their numbers.
#[derive(Debug, Drop)]
pub struct Instance {
    pub action: u32,
    pub args: Items<u32>,
}
