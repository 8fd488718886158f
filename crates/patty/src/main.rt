//! The planner's program: `patty DOMAIN PROBLEM [--max-n N] [--steps B] [--pivots P]`.
//!
//! `main` makes the adapters to the system and hands its words to `plan_run`, which does the work.
#![tactic(auto)]

use patty_io::{DiskShelf, OutSink};
use patty_run::{Stop, exit_of, status_of_stop, words_of};
use planner::plan_run;
use std::alloc::Global;
use std::io::ErrorKind;
use std::process::ExitCode;

fn main(rt: HostRuntime) -> ExitCode {
    let alloc: Global = rt.alloc();
    let words = match words_of(&rt) {
        Ok(words) => words,
        Err(error) if error.kind() == ErrorKind::OutOfMemory => {
            return ExitCode::from(status_of_stop(&Stop::Memory));
        }
        // Words that aren't text aren't the right ones.
        Err(_) => Vec::new(alloc),
    };
    let mut files = DiskShelf::new(&rt, alloc);
    let mut out = OutSink::new(&rt);
    exit_of(plan_run(alloc, &words, &mut files, &mut out))
}
