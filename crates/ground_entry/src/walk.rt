//! `Walk`: what grounding knows so far.
ghost use Rattle.std.specs.Prelude.{◌≡◌, IfOk};
ghost use Rattle.ground_entry.specs.Walking.{walk_start};

use ground_draft::Draft;
use ground_seen::Tables;
use pddl_task::{Instance, Task};
use sqlite_items::Items;
use std::alloc::{AllocError, Global};

/// The ground atoms and functions that are numbered, the instances that are kept, and the draft of each.
#[derive(Debug, Drop)]
pub struct Walk {
    pub tables: Tables,
    pub instances: Items<Instance>,
    pub drafts: Items<Draft>,
}

impl Walk {
    /// Before the first instance: what is given at the start has numbers.
    pub fn new(alloc: Global, task: &Task) -> Result<Walk, AllocError>
        ensures { IfOk result (λ w. w ≡ walk_start task.now) }
    {
        let mut tables = Tables::new(alloc);
        tables.see_start(task)?;
        Ok(Walk {
            tables,
            instances: Items::new(alloc),
            drafts: Items::new(alloc),
        })
    }
}
