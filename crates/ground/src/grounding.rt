//! `ground`.
ghost use Rattle.std.specs.Prelude.{◌≤◌};
ghost use Rattle.ground.specs.Grounds.{Grounds};

use crate::concluding::conclude;
use crate::grounded::Grounded;
use crate::working::{Worked, work};
use ground_entry::GroundFail;
use pddl_task::Task;
use plan_step::State;
use std::alloc::Global;

/// So many instances may be kept.
const MOST_KEPT: usize = 1_000_000;

/// The same, where so many instances may be kept.
fn ground_within(alloc: Global, task: &Task, limit: usize) -> Result<Grounded, GroundFail>
    requires { limit ≤ 1000000 }
    ensures { Grounds task.now limit result }
{
    let start = State::initial(alloc, task)?;
    let Worked { walk, goal } = work(alloc, task, &start, limit)?;
    Ok(conclude(alloc, &start, walk, goal)?)
}

/// The ground task of a task. Or what comes first: an instance that is one too many, or an operation on fractions that passes
/// 128 bits. Instances are taken in their order, and then the goal.
pub fn ground(alloc: Global, task: &Task) -> Result<Grounded, GroundFail>
    ensures { Grounds task.now 1000000 result }
{
    ground_within(alloc, task, MOST_KEPT)
}
