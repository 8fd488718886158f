//! An instance is kept, where it isn't one too many.
ghost use Rattle.std.specs.Prelude.{◌≡◌, [], ◌∷◌, ◌++◌, IfOk, OnOk};
ghost use Rattle.ground_entry.specs.inside.Keeping.{Keeps};

use crate::failure::GroundFail;
use crate::walk::Walk;
use ground_draft::Draft;
use pddl_task::Instance;
use sqlite_items::Items;
use std::alloc::{AllocError, Global};

fn instance(alloc: Global, action: u32, args: &[u32]) -> Result<Instance, AllocError>
    ensures { IfOk result (λ i. i ≡ record { action = action; args = args.now }) }
{
    let args = Items::from_slice(alloc, args)?;
    Ok(Instance { action, args })
}

fn add(walk: &mut Walk, by: Instance, draft: Draft) -> Result<(), AllocError>
    ensures { OnOk result (walk.new ≡ record { tables = walk.old.tables; instances = walk.old.instances ++ by ∷ []; drafts = walk.old.drafts ++ draft ∷ [] }) }
{
    walk.instances.push(by)?;
    walk.drafts.push(draft)?;
    Ok(())
}

/// Keeps an instance with its draft, where fewer than `limit` are kept.
pub(crate) fn keep(
    alloc: Global,
    limit: usize,
    walk: &mut Walk,
    action: u32,
    args: &[u32],
    draft: Draft,
) -> Result<(), GroundFail>
    ensures { Keeps limit walk.old (record { action = action; args = args.now }) draft result walk.new }
{
    if walk.instances.len() >= limit {
        return Err(GroundFail::Many);
    }
    let by = instance(alloc, action, args)?;
    add(walk, by, draft)?;
    Ok(())
}
