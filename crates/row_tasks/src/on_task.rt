//! What a call answers on the task of a row's first two texts.
use crate::tasks::task_of;
use pddl_task::Task;
use row_files::{show_refusal, text};
use std::alloc::{AllocError, Global};

/// The calls that answer rows on a task.
pub trait TaskAnswers {
    /// What the call of this name answers on the task of the first two of these texts.
    fn answer(
        alloc: Global,
        call: &str,
        task: &Task,
        texts: &[Vec<u8>],
    ) -> Result<String, AllocError>;
}

/// What a call answers on the task of the first two texts, or their first fault.
pub fn answer_on_task<A: TaskAnswers>(
    alloc: Global,
    call: &str,
    texts: &[Vec<u8>],
) -> Result<String, AllocError> {
    let domain = text(texts, 0);
    let problem = text(texts, 1);
    match task_of(alloc, domain, problem) {
        Ok(task) => A::answer(alloc, call, &task, texts),
        Err(refusal) => show_refusal(alloc, &refusal, domain, problem),
    }
}
