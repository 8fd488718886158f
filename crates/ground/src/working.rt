//! All that may meet an operation that passes: the walk through the instances, and then the goal.
ghost use Rattle.std.specs.Prelude.{◌≡◌};
ghost use Rattle.plan_step.specs.State.{initial};
ghost use Rattle.plan_step.specs.Held.{state_of};
ghost use Rattle.ground.specs.inside.Working.{Works};

use crate::goal::draft_goal;
use crate::walking::walked;
use ground_draft::Draft;
use ground_entry::{GroundFail, Walk};
use pddl_task::Task;
use plan_step::State;
use std::alloc::Global;

/// The walk, and the goal's draft.
#[derive(Debug, Drop)]
pub(crate) struct Worked {
    pub(crate) walk: Walk,
    pub(crate) goal: Draft,
}

pub(crate) fn work(
    alloc: Global,
    task: &Task,
    start: &State,
    limit: usize,
) -> Result<Worked, GroundFail>
    requires { state_of start.now ≡ initial task.now }
    ensures { Works task.now limit result }
{
    let mut walk = walked(alloc, task, start, limit)?;
    let goal = draft_goal(alloc, task, start, &mut walk.tables)?;
    Ok(Worked { walk, goal })
}
