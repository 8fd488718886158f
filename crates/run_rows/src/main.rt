//! Whole runs of the programs as rows of data (`row_files`): for each, the status that it ends with, and what it wrote.
//!
//! The texts of a run: its words, the calls of the shelf and of the sink that fail, by their numbers from 1, and the files by
//! turns of a name and a content. Files and output are in memory.
#![tactic(auto)]

mod runs;

use row_files::{Answers, answer_files};
use std::alloc::{AllocError, Global};
use std::io;

struct Programs;

impl Answers for Programs {
    fn answer(alloc: Global, call: &str, texts: &[Vec<u8>]) -> Result<String, AllocError> {
        runs::answer(alloc, call, texts)
    }
}

fn main(rt: HostRuntime) -> io::Result<()> {
    answer_files::<Programs, HostRuntime>(&rt)
}
