//! How much a task has.
use pddl_task::Task;
use std::alloc::{AllocError, Global};

/// How many objects, actions, facts, values and leaves of the goal.
pub fn counts(alloc: Global, made: &Task) -> Result<String, AllocError> {
    let objects = made.objects();
    let actions = made.actions().len();
    let facts = made.facts().len();
    let values = made.values().len();
    let goal = made.goal().len();
    format!(in alloc; "{objects} {actions} {facts} {values} {goal}")
}
