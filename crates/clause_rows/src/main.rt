//! Formulas of clauses as rows of data (`row_files`), solved by the clause core over the theory without atoms, over one that
//! refuses, and over bounds of counts: for each row, this program prints what the core answers, and whether the log or the
//! point is wrong by a plain checker. Begin with `answers`.
#![tactic(auto)]

mod answers;
mod bounds;
mod checker;
mod reading;
mod readings;
mod refusing;
mod starting;

use answers::answer;
use row_files::{Answers, answer_files};
use std::alloc::{AllocError, Global};
use std::io;

struct Solved;

impl Answers for Solved {
    fn answer(alloc: Global, call: &str, texts: &[Vec<u8>]) -> Result<String, AllocError> {
        answer(alloc, call, texts)
    }
}

fn main(rt: HostRuntime) -> io::Result<()> {
    answer_files::<Solved, HostRuntime>(&rt)
}
