//! The walk through all instances.
ghost use Rattle.std.specs.Prelude.{◌≡◌, ◌≤◌, length};
ghost use Rattle.pddl_task.specs.WellFormed.{IsWellFormed};
ghost use Rattle.plan_step.specs.State.{initial};
ghost use Rattle.plan_step.specs.Held.{state_of};
ghost use Rattle.ground_instances.specs.Index.{IsIndexOf};
ghost use Rattle.ground_entry.specs.Walking.{Walks};
ghost use Rattle.ground.specs.Course.{all_instances};
ghost use Rattle.ground.specs.inside.Working.{Walked};

use ground_entry::{GroundFail, Walk, walk_action};
use ground_instances::{FactIndex, Search};
use pddl_task::Task;
use plan_step::State;
use std::alloc::Global;

fn formed(task: &Task)
    ensures { IsWellFormed task.now }
{
    task.well_formed();
}

/// Walks through the instances of all actions, in text order.
fn walk_all(
    alloc: Global,
    task: &Task,
    start: &State,
    facts: &FactIndex,
    limit: usize,
    walk: &mut Walk,
) -> Result<(), GroundFail>
    requires start { state_of start.now ≡ initial task.now }
    requires index { IsIndexOf facts.now task.now.facts }
    requires few { length walk.old.instances ≤ limit }
    ensures { Walks task.now limit walk.old (all_instances task.now) result walk.new }
{
    formed(task);
    for (number, action) in task.actions().iter().enumerate() {
        let search = Search {
            alloc,
            task,
            start,
            facts,
            action,
        };
        walk_action(&search, limit, number as u32, walk)?;
    }
    Ok(())
}

/// The walk from the start.
pub(crate) fn walked(
    alloc: Global,
    task: &Task,
    start: &State,
    limit: usize,
) -> Result<Walk, GroundFail>
    requires { state_of start.now ≡ initial task.now }
    ensures { Walked task.now limit result }
{
    let facts = FactIndex::new(alloc, task)?;
    let mut walk = Walk::new(alloc, task)?;
    walk_all(alloc, task, start, &facts, limit, &mut walk)?;
    Ok(walk)
}
