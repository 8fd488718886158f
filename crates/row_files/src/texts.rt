//! The texts that a call is given.
use std::str;

/// A text by its number; an empty one where there are fewer.
pub fn text(texts: &[Vec<u8>], at: usize) -> &[u8] {
    match texts.get(at) {
        Some(text) => text.as_slice(),
        None => &[],
    }
}

/// A text that is a word; an empty one where it isn't.
pub fn word(texts: &[Vec<u8>], at: usize) -> &str {
    str::from_utf8(text(texts, at)).unwrap_or("")
}
