//! Ground tasks as rows of data (`row_files`): for each row, this program prints what the public calls of `task_core`, `relaxed`,
//! `pattern`, `encode` and `formula` answer. `tasks` has the form of a task. Begin with `answers`.
#![tactic(auto)]

mod answers;
mod expressions;
mod formulas;
mod points;
mod refusal;
mod shown;
mod tasks;

use answers::answer;
use row_files::{Answers, answer_files};
use std::alloc::{AllocError, Global};
use std::io;

struct Cases;

impl Answers for Cases {
    fn answer(alloc: Global, call: &str, texts: &[Vec<u8>]) -> Result<String, AllocError> {
        answer(alloc, call, texts)
    }
}

fn main(rt: HostRuntime) -> io::Result<()> {
    answer_files::<Cases, HostRuntime>(&rt)
}
