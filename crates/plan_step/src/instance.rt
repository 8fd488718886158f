//! Whether an instance fits its action: as many arguments as parameters, each an object of one of its parameter's types.
ghost use Rattle.std.specs.Prelude.{◌≡◌, true, nat_lt, length, slice_get, Ok, Err, IfSome, MatchOption, MatchResult};
ghost use Rattle.std.specs.List.{list_all};
ghost use Rattle.pddl_task.specs.Numbers.{counts_of, are_types};
ghost use Rattle.plan_step.specs.Meaning as meaning;
ghost use Rattle.plan_step.specs.Step as steps;
ghost use Rattle.plan_step.specs.Fitting.{fitting};

use crate::failure::StepFail;
use pddl_task::{Action, Instance, Task};
use sqlite_items::Items;

/// Whether the object is of one of the types, or of one below.
fn fits(task: &Task, types: &[u32], object: u32) -> bool
    requires { list_all (λ t. nat_lt t (length task.now.types)) types.now ≡ true }
    ensures { result ≡ meaning.fits task.now types.now object }
{
    if object >= task.objects() {
        return false;
    }
    let of = task.object_type(object);
    for t in types {
        if task.below(of, *t) {
            return true;
        }
    }
    false
}

/// Whether each argument is of its parameter's types.
fn all_fit(task: &Task, params: &[Items<u32>], args: &[u32]) -> bool
    requires { are_types (counts_of task.now) params.now ≡ true }
    ensures { result ≡ meaning.all_fit task.now params.now args.now }
{
    for (i, types) in params.iter().enumerate() {
        let Some(object) = args.get(i) else {
            return true;
        };
        if !fits(task, types.as_slice(), *object) {
            return false;
        }
    }
    true
}

/// The action with this number, where it takes so many arguments.
fn action_with(task: &Task, action: u32, count: usize) -> Option<&Action>
    ensures found { MatchOption result (steps.action_with count (slice_get task.now.actions action) ≡ Err StepFail.Arity) (λ a. steps.action_with count (slice_get task.now.actions action) ≡ Ok a.now) }
    ensures numbered { IfSome result (λ a. are_types (counts_of task.now) a.now.params ≡ true) }
{
    let found = task.actions().get(action as usize)?;
    if found.params.len() == count {
        Some(found)
    } else {
        None
    }
}

/// The action of the instance, where it fits.
pub fn fitting_action<'a>(task: &'a Task, by: &Instance) -> Result<&'a Action, StepFail>
    ensures { MatchResult result (λ a. fitting task.now by.now ≡ Ok a.now) (λ e. fitting task.now by.now ≡ Err e) }
{
    let Some(action) = action_with(task, by.action, by.args.len()) else {
        return Err(StepFail::Arity);
    };
    if !all_fit(task, action.params.as_slice(), by.args.as_slice()) {
        return Err(StepFail::ArgType);
    }
    Ok(action)
}
