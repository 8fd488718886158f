//! Repeating an instance. Begin with `repeat`; what is done after the first step is in `repeat_after`. Each repetition touches
//! the same atoms and functions, so what the first one's touches keep undoes them all.
ghost use Rattle.std.specs.Prelude.{◌≡◌, ◌<◌, ◌^◌, length, map, Ok};
ghost use Rattle.pddl_task.specs.WellFormed.{IsWellFormed};
ghost use Rattle.plan_step.specs.State.{PlanState};
ghost use Rattle.plan_step.specs.Held.{state_of};
ghost use Rattle.plan_step.specs.Meaning.{HasStep};
ghost use Rattle.plan_step.specs.Places.{KeepsPlaces};
ghost use Rattle.plan_step.specs.Touches.{EachTouch, HasPlace, DiffersIn, target_of};
ghost use Rattle.plan_step.specs.Fitting.{fitting, targets_of};
ghost use Rattle.plan_repeat.specs.Repeat.{IsInTurn, Repeats};
ghost use Rattle.plan_repeat.specs.inside.Repeating.{IsBegun, RepeatsOn};

use crate::deciding::growths_rolling;
use crate::failure::RepeatFail;
use crate::jumping::jump;
use pddl_task::{Action, Instance, Task};
use plan_step::{State, StepFail, Touch, fitting_action, make, restore, step};
use std::alloc::Global;

/// The repetitions after the first, one after another.
fn repeat_on(
    alloc: Global,
    task: &Task,
    state: &mut State,
    by: &Instance,
    times: u128,
) -> Result<(), RepeatFail>
    requires { 0 < times }
    ensures repeats { (s : PlanState) → HasStep task.now s by.now (state_of state.old) → IsInTurn task.now s by.now → RepeatsOn task.now by.now times s (state_of state.new) result }
    ensures differs { DiffersIn (targets_of task.now by.now) (state_of state.old) (state_of state.new) }
    ensures keeps { KeepsPlaces state.old state.new }
{
    for done in 1..times {
        if let Err(fail) = step(alloc, task, state, by) {
            return Err(RepeatFail { at: done + 1, fail });
        }
    }
    Ok(())
}

fn well_formed(task: &Task)
    ensures { IsWellFormed task.now }
{
    task.well_formed();
}

/// The repetitions after the first: by the jump where the instance rolls, else one after another.
fn repeat_after(
    alloc: Global,
    task: &Task,
    state: &mut State,
    by: &Instance,
    action: &Action,
    touches: &[Touch],
    times: u128,
) -> Result<(), RepeatFail>
    requires some { 0 < times }
    requires conds { length action.now.conds < 2 ^ 32 }
    requires places { EachTouch (HasPlace state.old) touches.now }
    requires targets { map target_of touches.now ≡ targets_of task.now by.now }
    ensures repeats { (s : PlanState) → IsBegun task.now by.now action.now touches.now s (state_of state.old) → RepeatsOn task.now by.now times s (state_of state.new) result }
    ensures differs { DiffersIn (targets_of task.now by.now) (state_of state.old) (state_of state.new) }
    ensures keeps { KeepsPlaces state.old state.new }
{
    if times == 1 {
        return Ok(());
    }
    well_formed(task);
    let args = by.args.as_slice();
    let conds = action.conds.as_slice();
    let effs = action.effs.as_slice();
    match growths_rolling(alloc, task, state, args, conds, effs, touches) {
        Ok(Some(growths)) => jump(state, args, conds, touches, growths.as_slice(), times),
        Ok(None) => repeat_on(alloc, task, state, by, times),
        Err(_) => Err(RepeatFail {
            at: 1,
            fail: StepFail::Memory,
        }),
    }
}

/// All repetitions of an instance of the action.
fn repeat_action(
    alloc: Global,
    task: &Task,
    state: &mut State,
    by: &Instance,
    action: &Action,
    times: u128,
) -> Result<(), RepeatFail>
    requires some { 0 < times }
    requires fits { fitting task.now by.now ≡ Ok action.now }
    ensures { Repeats task.now by.now times (state_of state.old) (state_of state.new) result }
{
    let first = match make(alloc, state, action, by.args.as_slice()) {
        Ok(touches) => touches,
        Err(fail) => return Err(RepeatFail { at: 1, fail }),
    };
    if let Err(failed) = repeat_after(alloc, task, state, by, action, first.as_slice(), times) {
        restore(state, first.as_slice());
        return Err(failed);
    }
    Ok(())
}

/// Makes so many steps of the instance in turn. After a failure the state is as before the first. An instance that rolls takes
/// as long as a few steps, whatever the number: its conditions are tested at the first and the last repetition, and where they
/// fail the first that fails is found by halving. Rolling is decided after the first step; where an operation passes by which it
/// is decided, the steps are made one after another.
pub fn repeat(
    alloc: Global,
    task: &Task,
    state: &mut State,
    by: &Instance,
    times: u128,
) -> Result<(), RepeatFail>
    ensures { Repeats task.now by.now times (state_of state.old) (state_of state.new) result }
{
    if times == 0 {
        return Ok(());
    }
    match fitting_action(task, by) {
        Ok(action) => repeat_action(alloc, task, state, by, action, times),
        Err(fail) => Err(RepeatFail { at: 1, fail }),
    }
}
