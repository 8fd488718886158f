//! One step of an instance. Begin with `step`; `make` does what comes after the tests of the instance.
ghost use Rattle.std.specs.Prelude.{◌<◌, ◌^◌, length, map, IfOk, IfErr, IsTrue};
ghost use Rattle.plan_step.specs.Held.{state_of};
ghost use Rattle.plan_step.specs.Places.{KeepsPlaces};
ghost use Rattle.plan_step.specs.Step.{made_by, step_from};
ghost use Rattle.plan_step.specs.Fitting.{targets_of};
ghost use Rattle.plan_step.specs.Touches.{changes_of, target_in, EachTouch, HasTarget, DiffersIn};
ghost use Rattle.plan_step.specs.inside.Touching.{Answers, AreTouches, changes_in};
ghost use Rattle.plan_step.specs.Making.{Makes, StepsBy};
ghost use Rattle.plan_step.specs.Undoing.{WasBefore};
ghost use Rattle.plan_step.specs.Reasons.{FailsBy};

use crate::application::{apply, make_places};
use crate::clashes::test_clashes;
use crate::conditions::test_conditions;
use crate::failure::StepFail;
use crate::instance::fitting_action;
use crate::state::State;
use crate::touches::{Touch, touches_of};
use pddl_task::{Action, Cond, Effect, Instance, Task};
use sqlite_items::Items;
use std::alloc::Global;

/// Whether each leaf of the action has a number.
fn is_countable(action: &Action) -> bool
    ensures conds { IsTrue result → length action.now.conds < 2 ^ 32 }
    ensures effs { IsTrue result → length action.now.effs < 2 ^ 32 }
{
    let most = u32::MAX as usize;
    action.conds.len() <= most && action.effs.len() <= most
}

/// What the leaves of an effect touch in this state, where the leaves of the condition hold and no two leaves clash.
fn find_touches(
    alloc: Global,
    state: &State,
    args: &[u32],
    conds: &[Cond],
    effs: &[Effect],
) -> Result<Items<Touch>, StepFail>
    requires conds { length conds.now < 2 ^ 32 }
    requires effs { length effs.now < 2 ^ 32 }
    ensures meant { Answers changes_of (changes_in (state_of state.now) args.now conds.now effs.now) result }
    ensures sound { IfOk result (AreTouches (state_of state.now) args.now effs.now) }
{
    test_conditions(state, args, conds)?;
    let touches = touches_of(alloc, state, args, effs)?;
    test_clashes(alloc, touches.as_slice())?;
    Ok(touches)
}

/// Makes a step of an instance of the action, at arguments of its types. The touches tell its changes, and the state before
/// it. After a failure the state is as before. More leaves than have a number would take more memory than there is, and are
/// answered so.
pub fn make(
    alloc: Global,
    state: &mut State,
    action: &Action,
    args: &[u32],
) -> Result<Items<Touch>, StepFail>
    ensures made { Makes (made_by (state_of state.old) action.now args.now) (state_of state.old) (state_of state.new) result }
    ensures steps { IfOk result (λ touches. StepsBy (state_of state.old) action.now args.now (changes_of touches) (state_of state.new)) }
    ensures targets { IfOk result (EachTouch (HasTarget (state_of state.old))) }
    ensures countable { IfOk result (λ touches. length action.now.conds < 2 ^ 32) }
    ensures before { IfOk result (WasBefore (map (target_in args.now) action.now.effs) (state_of state.old) state.new) }
    ensures keeps { KeepsPlaces state.old state.new }
{
    if !is_countable(action) {
        return Err(StepFail::Memory);
    }
    let conds = action.conds.as_slice();
    let effs = action.effs.as_slice();
    let touches = find_touches(alloc, state, args, conds, effs)?;
    make_places(state, touches.as_slice())?;
    apply(state, touches.as_slice())?;
    Ok(touches)
}

/// The same of any instance.
pub(crate) fn make_step(
    alloc: Global,
    task: &Task,
    state: &mut State,
    by: &Instance,
) -> Result<Items<Touch>, StepFail>
    ensures made { Makes (step_from task.now (state_of state.old) by.now) (state_of state.old) (state_of state.new) result }
    ensures before { IfOk result (WasBefore (targets_of task.now by.now) (state_of state.old) state.new) }
    ensures keeps { KeepsPlaces state.old state.new }
{
    let action = fitting_action(task, by)?;
    make(alloc, state, action, by.args.as_slice())
}

fn step_on(alloc: Global, task: &Task, state: &mut State, by: &Instance) -> Result<(), StepFail>
    ensures made { Makes (step_from task.now (state_of state.old) by.now) (state_of state.old) (state_of state.new) result }
    ensures differs { DiffersIn (targets_of task.now by.now) (state_of state.old) (state_of state.new) }
    ensures keeps { KeepsPlaces state.old state.new }
{
    make_step(alloc, task, state, by)?;
    Ok(())
}

/// Makes one step, which changes at most what the instance touches. After a failure the state is as before.
pub fn step(alloc: Global, task: &Task, state: &mut State, by: &Instance) -> Result<(), StepFail>
    ensures made { Makes (step_from task.now (state_of state.old) by.now) (state_of state.old) (state_of state.new) result }
    ensures reason { IfErr result (FailsBy task.now (state_of state.old) by.now) }
    ensures differs { DiffersIn (targets_of task.now by.now) (state_of state.old) (state_of state.new) }
    ensures keeps { KeepsPlaces state.old state.new }
{
    step_on(alloc, task, state, by)
}
