//! Tasks as rows of data (`row_files`): for each row, this program prints the ground task that `ground` makes of the task of its
//! two texts. Begin with `answers`; `shown` says how a ground task is printed.
#![tactic(auto)]

mod actions;
mod answers;
mod shown;

use answers::answer;
use pddl_task::Task;
use row_files::{Answers, answer_files};
use row_tasks::{TaskAnswers, answer_on_task};
use std::alloc::{AllocError, Global};
use std::io;

struct Cases;

impl TaskAnswers for Cases {
    fn answer(
        alloc: Global,
        call: &str,
        task: &Task,
        _texts: &[Vec<u8>],
    ) -> Result<String, AllocError> {
        answer(alloc, call, task)
    }
}

struct Rows;

impl Answers for Rows {
    fn answer(alloc: Global, call: &str, texts: &[Vec<u8>]) -> Result<String, AllocError> {
        answer_on_task::<Cases>(alloc, call, texts)
    }
}

fn main(rt: HostRuntime) -> io::Result<()> {
    answer_files::<Rows, HostRuntime>(&rt)
}
