//! Which call answers which row, by its name.
use crate::{plans, steps};
use pddl_task::Task;
use row_files::{text, word};
use std::alloc::{AllocError, Global};

/// What a call answers on a task.
pub fn answer(
    alloc: Global,
    call: &str,
    task: &Task,
    texts: &[Vec<u8>],
) -> Result<String, AllocError> {
    match call {
        "step" => steps::answer_step(alloc, task),
        "repeat" => steps::answer_repeat(alloc, task, word(texts, 2)),
        "each" => steps::answer_each(alloc, task),
        "instance" => steps::answer_instance(alloc, task, word(texts, 2), word(texts, 3)),
        _ => answer_plan(alloc, call, task, text(texts, 2)),
    }
}

fn answer_plan(alloc: Global, call: &str, task: &Task, text: &[u8]) -> Result<String, AllocError> {
    match call {
        "plan" => plans::answer_plan(alloc, task, text),
        "written" => plans::answer_written(alloc, task, text),
        "length" => plans::answer_length(alloc, task, text),
        "judge" => plans::answer_judge(alloc, task, text),
        _ => String::from_str(alloc, "no such call"),
    }
}
