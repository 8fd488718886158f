//! Cases as rows of data (`row_files`) of tasks: for each row, this program prints what the public calls answer on the task of
//! its two texts, or their first fault. Begin with `answers`.
#![tactic(auto)]

mod answers;
mod task_parts;
mod tasks;

use answers::answer;
use pddl_task::Task;
use row_files::{Answers, answer_files};
use row_tasks::{TaskAnswers, answer_on_task};
use std::alloc::{AllocError, Global};
use std::io;

struct Cases;

impl TaskAnswers for Cases {
    fn answer(
        alloc: Global,
        call: &str,
        task: &Task,
        texts: &[Vec<u8>],
    ) -> Result<String, AllocError> {
        answer(alloc, call, task, texts)
    }
}

struct Rows;

impl Answers for Rows {
    fn answer(alloc: Global, call: &str, texts: &[Vec<u8>]) -> Result<String, AllocError> {
        answer_on_task::<Cases>(alloc, call, texts)
    }
}

fn main(rt: HostRuntime) -> io::Result<()> {
    answer_files::<Rows, HostRuntime>(&rt)
}
