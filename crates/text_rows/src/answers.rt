//! Which call answers which row, by its name.
use crate::{domains, forms, problems};
use row_files::{text, word};
use std::alloc::{AllocError, Global};

/// What a call answers on these texts.
pub fn answer(alloc: Global, call: &str, texts: &[Vec<u8>]) -> Result<String, AllocError> {
    let first = text(texts, 0);
    match call {
        "domain" => domains::answer(alloc, first),
        "domain parts" => domains::answer_parts(alloc, first),
        "problem" => problems::answer(alloc, first),
        "problem parts" => problems::answer_parts(alloc, first),
        "form" => forms::answer(alloc, word(texts, 0), text(texts, 1)),
        _ => String::from_str(alloc, "no such call"),
    }
}
