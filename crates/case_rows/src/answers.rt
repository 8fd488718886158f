//! Which call answers which row, by its name.
use crate::{task_parts, tasks};
use pddl_task::Task;
use row_files::word;
use std::alloc::{AllocError, Global};

/// What a call answers on a task.
pub fn answer(
    alloc: Global,
    call: &str,
    task: &Task,
    texts: &[Vec<u8>],
) -> Result<String, AllocError> {
    match call {
        "link" => tasks::counts(alloc, task),
        "task" => task_parts::answer(alloc, task, word(texts, 2), word(texts, 3), word(texts, 4)),
        _ => String::from_str(alloc, "no such call"),
    }
}
