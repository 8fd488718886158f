//! Steps, repetitions and instances. The tasks of these rows have an action without parameters as their first, the functions
//! `x` and `y`, and the predicate `p`.
use crate::failures::show_fail;
use pddl_task::{Instance, Task};
use plan_repeat::{RepeatFail, repeat};
use plan_step::{State, StepFail, step};
use row_files::show_fraction;
use sqlite_items::Items;
use std::alloc::{AllocError, Global};

fn value(alloc: Global, state: &State, func: u32) -> Result<String, AllocError> {
    match state.value(func, &[]) {
        None => String::from_str(alloc, "-"),
        Some(value) => show_fraction(alloc, &value),
    }
}

/// The values of `x` and `y`, `-` for none, and `p` where it is true.
fn shown(alloc: Global, state: &State) -> Result<String, AllocError> {
    let x = value(alloc, state, 0)?;
    let y = value(alloc, state, 1)?;
    let p = if state.atom(0, &[]) { " p" } else { "" };
    format!(in alloc; "{x} {y}{p}")
}

fn first_action(alloc: Global) -> Instance {
    Instance {
        action: 0,
        args: Items::new(alloc),
    }
}

/// What a step of the first action fails with.
fn step_fail(alloc: Global, task: &Task, state: &mut State) -> Result<Option<String>, AllocError> {
    match step(alloc, task, state, &first_action(alloc)) {
        Ok(()) => Ok(None),
        Err(fail) => Ok(Some(show_fail(alloc, &fail)?)),
    }
}

fn show_repeat_fail(alloc: Global, failed: &RepeatFail) -> Result<String, AllocError> {
    let at = failed.at;
    let fail = show_fail(alloc, &failed.fail)?;
    format!(in alloc; "repetition {at}: {fail}")
}

/// What repetitions of the first action fail with.
fn repeat_fail(
    alloc: Global,
    task: &Task,
    state: &mut State,
    times: u128,
) -> Result<Option<String>, AllocError> {
    match repeat(alloc, task, state, &first_action(alloc), times) {
        Ok(()) => Ok(None),
        Err(failed) => Ok(Some(show_repeat_fail(alloc, &failed)?)),
    }
}

/// The state behind what was made; or the failure, and then the state only where it isn't as before.
fn outcome(fail: Option<String>, before: String, behind: String) -> Result<String, AllocError> {
    let Some(mut out) = fail else {
        return Ok(behind);
    };
    if behind.as_str() != before.as_str() {
        out.push_str(", and the state is ")?;
        out.push_str(behind.as_str())?;
    }
    Ok(out)
}

/// A step from the initial state.
pub fn answer_step(alloc: Global, task: &Task) -> Result<String, AllocError> {
    let mut state = State::initial(alloc, task)?;
    let before = shown(alloc, &state)?;
    let fail = step_fail(alloc, task, &mut state)?;
    outcome(fail, before, shown(alloc, &state)?)
}

/// So many repetitions from the initial state.
fn repeated(alloc: Global, task: &Task, times: u128) -> Result<String, AllocError> {
    let mut state = State::initial(alloc, task)?;
    let before = shown(alloc, &state)?;
    let fail = repeat_fail(alloc, task, &mut state, times)?;
    outcome(fail, before, shown(alloc, &state)?)
}

/// As many steps from the initial state.
pub fn answer_repeat(alloc: Global, task: &Task, times: &str) -> Result<String, AllocError> {
    let Ok(times) = times.parse::<u128>() else {
        return String::from_str(alloc, "no number");
    };
    repeated(alloc, task, times)
}

/// So many single steps from the initial state, up to the first that fails.
fn stepped(alloc: Global, task: &Task, times: u128) -> Result<String, AllocError> {
    let mut state = State::initial(alloc, task)?;
    for done in 0..times {
        if let Err(fail) = step(alloc, task, &mut state, &first_action(alloc)) {
            return show_repeat_fail(alloc, &RepeatFail { at: done + 1, fail });
        }
    }
    shown(alloc, &state)
}

/// Whether so many repetitions come to the same as single steps; what they come to, and what the steps do, where they don't.
fn compared(alloc: Global, task: &Task, times: u128) -> Result<Option<String>, AllocError> {
    let at_once = repeated(alloc, task, times)?;
    let in_turn = stepped(alloc, task, times)?;
    if at_once.as_str() == in_turn.as_str() {
        return Ok(None);
    }
    Ok(Some(format!(in alloc; "{times}: {at_once}, and in turn {in_turn}")?))
}

fn first_difference(alloc: Global, task: &Task, most: u128) -> Result<Option<String>, AllocError> {
    for times in 0..most {
        if let Some(difference) = compared(alloc, task, times)? {
            return Ok(Some(difference));
        }
    }
    Ok(None)
}

/// Repetitions from the initial state, compared with as many single steps for each count up to 50: the first count at which
/// they differ, or that they don't, with what the last comes to.
pub fn answer_each(alloc: Global, task: &Task) -> Result<String, AllocError> {
    if let Some(difference) = first_difference(alloc, task, 51)? {
        return Ok(difference);
    }
    let last = repeated(alloc, task, 50)?;
    format!(in alloc; "the same; {last}")
}

fn first_step(alloc: Global, task: &Task, by: &Instance) -> Result<(), StepFail> {
    let mut state = State::initial(alloc, task)?;
    step(alloc, task, &mut state, by)
}

/// A step from the initial state, of an action and an object by their numbers.
pub fn answer_instance(
    alloc: Global,
    task: &Task,
    action: &str,
    object: &str,
) -> Result<String, AllocError> {
    let (Ok(action), Ok(object)) = (action.parse::<u32>(), object.parse::<u32>()) else {
        return String::from_str(alloc, "no numbers");
    };
    let mut args = Items::new(alloc);
    args.push(object)?;
    match first_step(alloc, task, &Instance { action, args }) {
        Ok(()) => String::from_str(alloc, "made"),
        Err(fail) => show_fail(alloc, &fail),
    }
}
