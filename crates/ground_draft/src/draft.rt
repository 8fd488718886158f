//! `Draft`: a ground action before all atoms are known.
use sqlite_items::Items;
use task_core::GAction;

/// A ground action over atoms alone. That a function has a value is an atom behind all others, and how many these are is
/// known only when every instance is grounded; so the functions without an initial value that it reads, and those that it
/// assigns, stand beside it, in rising number.
#[derive(Debug, Drop)]
pub struct Draft {
    pub action: GAction,
    pub reads: Items<u64>,
    pub assigns: Items<u64>,
}
