//! Rows, and the frame that a row is filled into.
use crate::escapes::bytes_of;
use std::alloc::{AllocError, Global};

/// The parts of a line, without the white space around each.
pub fn parts_of(alloc: Global, line: &str) -> Result<Vec<&str>, AllocError> {
    let mut parts = Vec::new(alloc);
    for part in line.split('|') {
        parts.push(part.trim())?;
    }
    Ok(parts)
}

/// The call that answers the rows below it, and the texts that the call is given.
#[derive(Drop)]
pub struct Frame {
    call: String,
    texts: Vec<String>,
}

impl Frame {
    /// The frame of no call.
    pub fn new(alloc: Global) -> Frame {
        Frame {
            call: String::new(alloc),
            texts: Vec::new(alloc),
        }
    }

    pub fn parse(alloc: Global, line: &str) -> Result<Frame, AllocError> {
        let mut parts = line.split('|');
        let call = String::from_str(alloc, parts.next().unwrap_or("").trim())?;
        let mut texts = Vec::new(alloc);
        for part in parts {
            texts.push(String::from_str(alloc, part.trim())?)?;
        }
        Ok(Frame { call, texts })
    }

    pub fn call(&self) -> &str {
        self.call.as_str()
    }

    /// The texts with a row's parts filled in. A part of the number 0 is the row's name.
    pub fn fill(&self, alloc: Global, parts: &[&str]) -> Result<Vec<Vec<u8>>, AllocError> {
        let mut filled = Vec::new(alloc);
        for text in &self.texts {
            let text = fill_text(alloc, text.as_str(), parts)?;
            filled.push(bytes_of(alloc, text.as_str())?)?;
        }
        Ok(filled)
    }
}

fn fill_text(alloc: Global, text: &str, parts: &[&str]) -> Result<String, AllocError> {
    let mut filled = String::new(alloc);
    let mut pieces = text.split('$');
    filled.push_str(pieces.next().unwrap_or(""))?;
    for piece in pieces {
        let (number, rest) = piece.split_at_checked(1).unwrap_or(("", piece));
        filled.push_str(part_numbered(parts, number).unwrap_or(number))?;
        filled.push_str(rest)?;
    }
    Ok(filled)
}

/// A row's part; there is none for a number that isn't one, which then stands for itself, so that the answer shows it.
fn part_numbered<'a>(parts: &[&'a str], number: &str) -> Option<&'a str> {
    let place = number.parse::<usize>().ok()?;
    parts.get(place).copied()
}
