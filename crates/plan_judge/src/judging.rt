//! The parts of a plan, one after another, and the goal after them.
ghost use Rattle.std.specs.Prelude.{IfOk};
ghost use Rattle.plan_judge.specs.Course.{ComesTo};
ghost use Rattle.plan_judge.specs.Laws.{Means};

use crate::outcome::{Outcome, PartFail};
use pddl_task::Task;
use plan_form::Plan;
use plan_repeat::repeat;
use plan_step::{State, StepFail, goal};
use std::alloc::{AllocError, Global};

/// Makes the parts from the initial state, up to the first that fails, and tests the goal.
fn find_outcome(alloc: Global, task: &Task, plan: &Plan) -> Result<Outcome, AllocError>
    ensures { IfOk result (ComesTo task.now plan.now) }
{
    let mut state = State::initial(alloc, task)?;
    for (i, part) in plan.parts().iter().enumerate() {
        if let Err(fail) = repeat(alloc, task, &mut state, &part.by, part.count) {
            if let StepFail::Memory = fail.fail {
                return Err(AllocError);
            }
            return Ok(Outcome::PartFails(PartFail {
                part: i as u64 + 1,
                fail,
            }));
        }
    }
    Ok(match goal(task, &state) {
        Ok(true) => Outcome::Valid,
        Ok(false) => Outcome::GoalFails,
        Err(wide) => Outcome::GoalWide(wide),
    })
}

/// Judges a plan. A part whose instance rolls takes as long as a few steps, whatever it counts; another takes as many steps as
/// it counts.
pub fn judge_plan(alloc: Global, task: &Task, plan: &Plan) -> Result<Outcome, AllocError>
    ensures comes { IfOk result (ComesTo task.now plan.now) }
    ensures means { IfOk result (Means task.now plan.now) }
{
    find_outcome(alloc, task, plan)
}
