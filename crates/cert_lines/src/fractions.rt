//! Fractions as words. Begin with `read_fractions`.
ghost use Rattle.std.specs.Prelude.{◌≡◌, [], ◌∷◌, OnOk, MatchOption, MatchResult, Some, None};
ghost use Rattle.cert_lines.specs.Found.{Answers};
ghost use Rattle.cert_lines.specs.Lists as lists;
ghost use Rattle.cert_lines.specs.Marks.{behind, behind_text_words};
ghost use Rattle.cert_lines.specs.Words.{piece_of};

use crate::refusal::{CertRefusal, misnumbered};
use crate::spelled::{is_mark, is_text_word};
use crate::word::{Word, Words};
use frac128::Frac;
use sqlite_items::Items;
use std::alloc::Global;

/// The fraction that a text spells.
fn parse_fraction(text: &[u8]) -> Option<Frac>
    ensures { result ≡ lists.fraction_of text.now }
{
    Frac::from_text(text).ok()
}

/// The fraction that a word spells.
pub fn read_fraction(word: &Word<'_>) -> Result<Frac, CertRefusal>
    ensures { Answers (lists.fraction_at (piece_of word.now)) result }
{
    match parse_fraction(word.bytes) {
        Some(fraction) => Ok(fraction),
        None => Err(misnumbered(word.at)),
    }
}

/// The fractions up to a `;` or to the end of the line.
pub fn read_fractions(alloc: Global, words: &mut Words) -> Result<Items<Frac>, CertRefusal>
    ensures fractions { Answers (lists.fractions_at words.old) result }
    ensures rest { OnOk result (words.new ≡ behind words.old) }
{
    let mut fractions = Items::new(alloc);
    'fractions: while let Some(word) = words.next_word() {
        if is_mark(word.bytes) {
            return Ok(fractions);
        }
        fractions.push(read_fraction(&word)?)?;
    }
    Ok(fractions)
}

/// Passes over the words that may stand in the place of fractions, and takes the word behind them, if there is one.
pub fn skip_text_words<'a>(words: &mut Words<'a>) -> Option<Word<'a>>
    ensures { MatchOption result (behind_text_words words.old ≡ []) (λ w. behind_text_words words.old ≡ piece_of w ∷ words.new) }
{
    'texts: while let Some(word) = words.next_word() {
        if !is_text_word(word.bytes) {
            return Some(word);
        }
    }
    None
}
