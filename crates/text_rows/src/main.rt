//! Cases as rows of data (`row_files`) of the readers of domains and problems, and of the forms that these are made of: for each
//! row, this program prints what the public calls answer. Begin with `answers`.
#![tactic(auto)]

mod answers;
mod domains;
mod forms;
mod problems;

use answers::answer;
use row_files::{Answers, answer_files};
use std::alloc::{AllocError, Global};
use std::io;

struct Cases;

impl Answers for Cases {
    fn answer(alloc: Global, call: &str, texts: &[Vec<u8>]) -> Result<String, AllocError> {
        answer(alloc, call, texts)
    }
}

fn main(rt: HostRuntime) -> io::Result<()> {
    answer_files::<Cases, HostRuntime>(&rt)
}
