//! The answers of the rows of files.
use crate::row::{Frame, parts_of};
use std::alloc::{AllocError, Global};
use std::rt::{Env, Files};
use std::{env, fs, io};

/// The calls that answer rows.
pub trait Answers {
    /// What the call of this name answers on these texts.
    fn answer(alloc: Global, call: &str, texts: &[Vec<u8>]) -> Result<String, AllocError>;
}

/// Prints the answer of each row of the files that the program's arguments name.
pub fn answer_files<A: Answers, R: Env + Files + AllocGlobal + Print>(rt: &R) -> io::Result<()> {
    let mut names = env::args(rt)?;
    let _program = names.next();
    for name in names {
        answer_file::<A, R>(rt, name.as_str())?;
    }
    Ok(())
}

fn answer_file<A: Answers, R: Files + AllocGlobal + Print>(rt: &R, name: &str) -> io::Result<()> {
    let text = fs::read_to_string(rt, name)?;
    let mut frame = Frame::new(rt.alloc());
    for line in text.as_str().lines() {
        if let Some(parts) = line.strip_prefix("frame ") {
            frame = Frame::parse(rt.alloc(), parts)?;
        } else if !line.is_empty() && !line.starts_with("#") {
            answer_row::<A, R>(rt, &frame, line)?;
        }
    }
    Ok(())
}

fn answer_row<A: Answers, R: AllocGlobal + Print>(
    rt: &R,
    frame: &Frame,
    line: &str,
) -> io::Result<()> {
    let parts = parts_of(rt.alloc(), line)?;
    let texts = frame.fill(rt.alloc(), parts.as_slice())?;
    let found = A::answer(rt.alloc(), frame.call(), texts.as_slice())?;
    let name = parts.first().copied().unwrap_or("");
    println!(rt; "{name} | {found}")
}
