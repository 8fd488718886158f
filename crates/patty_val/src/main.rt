//! The validator's program: `patty_val DOMAIN PROBLEM PLAN`.
//!
//! `main` makes the adapters to the system and hands its words to `val_run`, which does the work.
#![tactic(auto)]

use patty_io::{DiskShelf, OutSink};
use patty_run::{Stop, exit_of, status_of_stop, words_of};
use std::alloc::Global;
use std::io::ErrorKind;
use std::process::ExitCode;
use validator::val_run;

fn main(rt: HostRuntime) -> ExitCode {
    let alloc: Global = rt.alloc();
    let words = match words_of(&rt) {
        Ok(words) => words,
        Err(error) if error.kind() == ErrorKind::OutOfMemory => {
            return ExitCode::from(status_of_stop(&Stop::Memory));
        }
        // Words that aren't text aren't the right ones.
        Err(_) => Vec::new(alloc),
    };
    let mut files = DiskShelf::new(&rt, alloc);
    let mut out = OutSink::new(&rt);
    exit_of(val_run(alloc, &words, &mut files, &mut out))
}
