//! The goal, behind all instances.
ghost use Rattle.std.specs.Prelude.{◌≡◌};
ghost use Rattle.plan_step.specs.State.{initial};
ghost use Rattle.plan_step.specs.Held.{state_of};
ghost use Rattle.ground.specs.inside.Goal.{MakesGoal};

use ground_draft::{Draft, goal_draft};
use ground_parts::Grounding;
use ground_seen::Tables;
use lin::LinFail;
use pddl_task::Task;
use plan_step::State;
use std::alloc::Global;

/// The goal's draft, when what it names has numbers.
pub(crate) fn draft_goal(
    alloc: Global,
    task: &Task,
    start: &State,
    tables: &mut Tables,
) -> Result<Draft, LinFail>
    requires { state_of start.now ≡ initial task.now }
    ensures { MakesGoal task.now tables.old result tables.new }
{
    tables.see_goal(alloc, task)?;
    let given = Grounding {
        task,
        start,
        atoms: &tables.atoms,
        funcs: &tables.funcs,
    };
    goal_draft(alloc, &given)
}
