//! What one instance is grounded in.
use ground_numbers::Numbers;
use pddl_task::Task;
use plan_step::State;

/// The task, its initial state, and the ground atoms and functions in order of number.
#[derive(Clone, Copy)]
pub struct Grounding<'a> {
    pub task: &'a Task,
    pub start: &'a State,
    pub atoms: &'a Numbers,
    pub funcs: &'a Numbers,
}
