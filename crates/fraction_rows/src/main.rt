//! Cases as rows of data (`row_files`) of fractions: for each row, this program prints what the public calls answer. Begin with
//! `fractions`.
#![tactic(auto)]

mod fractions;

use row_files::{Answers, answer_files, text, word};
use std::alloc::{AllocError, Global};
use std::io;

struct Cases;

impl Answers for Cases {
    fn answer(alloc: Global, call: &str, texts: &[Vec<u8>]) -> Result<String, AllocError> {
        match call {
            "fraction" => fractions::answer(alloc, word(texts, 0), text(texts, 1), text(texts, 2)),
            _ => String::from_str(alloc, "no such call"),
        }
    }
}

fn main(rt: HostRuntime) -> io::Result<()> {
    answer_files::<Cases, HostRuntime>(&rt)
}
