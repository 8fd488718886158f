//! The bytes of a text: what each may be, where the first one stands that isn't allowed, and how far a comment or
//! a word goes. Begin with `Class`.
ghost use Rattle.std.specs.Prelude.{◌≡◌, ◌≤◌, length, IfOk};
ghost use Rattle.std.specs.List.{prefix_len, position_or_len};
ghost use Rattle.std.specs.Prelude.{◌==◌};
ghost use Rattle.sexpr.specs.Bytes.{class_of, is_in_word, word_of};
ghost use Rattle.sexpr.specs.inside.Steps.{PassesBytes};

use crate::Text;
use std::alloc::{AllocError, Global};

/// What a byte is outside of comments. A semicolon begins a comment, and a foreign byte isn't allowed.
#[derive(Clone, Copy, Debug, PartialEq, Eq)]
pub enum Class {
    White,
    Opens,
    Closes,
    Semicolon,
    InWord,
    Foreign,
}

/// The class of a byte.
pub fn class_at(byte: u8) -> Class
    ensures { result ≡ class_of byte }
{
    match byte {
        b' ' | b'\t' | b'\n' | b'\r' => Class::White,
        b'(' => Class::Opens,
        b')' => Class::Closes,
        b';' => Class::Semicolon,
        33..=126 => Class::InWord,
        _ => Class::Foreign,
    }
}

/// The place of the first byte outside of comments that isn't allowed.
pub fn first_foreign(bytes: &[u8]) -> Option<usize>
    ensures { PassesBytes bytes.now result }
{
    let mut in_comment = false;
    for (at, byte) in bytes.iter().enumerate() {
        if in_comment {
            in_comment = *byte != b'\n';
        } else {
            match class_at(*byte) {
                Class::Foreign => return Some(at),
                Class::Semicolon => in_comment = true,
                _ => {}
            }
        }
    }
    None
}

/// How many bytes there are before the first line feed, or in all.
pub fn comment_len(bytes: &[u8]) -> usize
    ensures { result ≡ position_or_len (λ b. b == 10) bytes.now }
{
    bytes.iter().take_while(|byte| **byte != b'\n').count()
}

/// How many bytes there are before the first that isn't of a word, or in all.
pub fn word_len(bytes: &[u8]) -> usize
    ensures { result ≡ prefix_len is_in_word bytes.now }
{
    bytes
        .iter()
        .take_while(|byte| class_at(**byte) == Class::InWord)
        .count()
}

/// The word that the bytes begin with, in lower case.
pub fn first_word(alloc: Global, bytes: &[u8]) -> Result<Text, AllocError>
    ensures { IfOk result (λ t. t ≡ word_of bytes.now) }
{
    let word = &bytes[..word_len(bytes)];
    let mut text = String::with_capacity(alloc, word.len())?;
    for byte in word {
        text.push(byte.to_ascii_lowercase() as char)?;
    }
    Ok(Text::from_string(text))
}
