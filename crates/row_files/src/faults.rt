//! Faults of texts: the file, the kind, the place with the text from there on, and the word where one is named.
use crate::escapes::add_shown;
use sexpr::{Source, TextRefusal};
use std::alloc::{AllocError, Global};

/// A fault of a text with this name.
pub fn show_fault(
    alloc: Global,
    of: &str,
    kind: u8,
    place: u32,
    word: &str,
    text: &[u8],
) -> Result<String, AllocError> {
    let mut out = format!(in alloc; "{of} fault {kind} at byte {place} | ")?;
    match text.split_at_checked(place as usize) {
        Some((_, [])) => out.push_str("the end of the text")?,
        Some((_, rest)) => add_shown(alloc, &mut out, rest)?,
        None => out.push_str("behind the text")?,
    }
    if !word.is_empty() {
        out.push_str(" | ")?;
        out.push_str(word)?;
    }
    Ok(out)
}

/// The fault of one of two texts. Want of memory ends the program.
pub fn show_refusal(
    alloc: Global,
    refusal: &TextRefusal,
    domain: &[u8],
    problem: &[u8],
) -> Result<String, AllocError> {
    let TextRefusal::Fault(fault) = refusal else {
        return Err(AllocError);
    };
    let word = fault.word.as_str();
    match fault.file {
        Source::Domain => show_fault(alloc, "domain", fault.kind, fault.place, word, domain),
        Source::Problem => show_fault(alloc, "problem", fault.kind, fault.place, word, problem),
    }
}
