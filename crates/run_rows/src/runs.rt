//! A run from its texts: the words, the calls that fail and the files; the program; its status and output.
use patty_io::{MemShelf, MemSink, NamedBytes, Status};
use planner::plan_run;
use row_files::{add_shown, text, word};
use std::alloc::{AllocError, Global};
use validator::val_run;

fn words_of(alloc: Global, text: &str) -> Result<Vec<String>, AllocError> {
    let mut words = Vec::new(alloc);
    for word in text.split_whitespace() {
        words.push(String::from_str(alloc, word)?)?;
    }
    Ok(words)
}

/// The numbers of calls; a word that is none is passed over.
fn calls_of(alloc: Global, text: &str) -> Result<Vec<u64>, AllocError> {
    let mut calls = Vec::new(alloc);
    for word in text.split_whitespace() {
        if let Ok(call) = word.parse::<u64>() {
            calls.push(call)?;
        }
    }
    Ok(calls)
}

fn file_of(alloc: Global, pair: &[Vec<u8>]) -> Result<NamedBytes, AllocError> {
    let name = String::from_str(alloc, word(pair, 0))?;
    let bytes = Vec::from_slice(alloc, text(pair, 1))?;
    Ok(NamedBytes { name, bytes })
}

fn files_of(alloc: Global, texts: &[Vec<u8>]) -> Result<Vec<NamedBytes>, AllocError> {
    let mut files = Vec::new(alloc);
    for pair in texts.chunks(2) {
        files.push(file_of(alloc, pair)?)?;
    }
    Ok(files)
}

fn shelf_of(alloc: Global, texts: &[Vec<u8>]) -> Result<MemShelf, AllocError> {
    let files = files_of(alloc, texts.get(3..).unwrap_or(&[]))?;
    let fails = calls_of(alloc, word(texts, 1))?;
    Ok(MemShelf::new(alloc, files, fails))
}

fn sink_of(alloc: Global, texts: &[Vec<u8>]) -> Result<MemSink, AllocError> {
    let fails = calls_of(alloc, word(texts, 2))?;
    Ok(MemSink::new(alloc, fails))
}

/// The status of a run of the program; none where no program has this name.
fn run(
    alloc: Global,
    program: &str,
    words: &[String],
    shelf: &mut MemShelf,
    sink: &mut MemSink,
) -> Option<Status> {
    match program {
        "patty" => Some(plan_run(alloc, words, shelf, sink)),
        "patty_val" => Some(val_run(alloc, words, shelf, sink)),
        _ => None,
    }
}

fn shown(alloc: Global, code: u8, written: &[u8]) -> Result<String, AllocError> {
    let mut out = format!(in alloc; "{code} | ")?;
    if written.is_empty() {
        out.push_str("nothing")?;
    }
    add_shown(alloc, &mut out, written)?;
    Ok(out)
}

/// The status and the output of a run of the program.
pub fn answer(alloc: Global, program: &str, texts: &[Vec<u8>]) -> Result<String, AllocError> {
    let words = words_of(alloc, word(texts, 0))?;
    let mut shelf = shelf_of(alloc, texts)?;
    let mut sink = sink_of(alloc, texts)?;
    match run(alloc, program, words.as_slice(), &mut shelf, &mut sink) {
        Some(status) => shown(alloc, status.code, sink.written()),
        None => String::from_str(alloc, "no such program"),
    }
}
