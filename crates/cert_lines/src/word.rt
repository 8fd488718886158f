//! The words of a line, one after another. Begin with `Words`.
ghost use Rattle.std.specs.Prelude.{◌≡◌, ◌==◌, ◌≤◌, length};
ghost use Rattle.std.specs.List.{position_or_len};

use std::marker::Model;

/// A word, and where it begins in the text.
#[derive(Clone, Copy, Debug)]
pub struct Word<'a> {
    pub at: u32,
    pub bytes: &'a [u8],
}

/// How many bytes there are before a space, or in all.
fn word_len(bytes: &[u8]) -> usize
    ensures value { result ≡ position_or_len (λ b. b == 32) bytes.now }
    ensures within { result ≤ length bytes.now }
{
    bytes.iter().take_while(|byte| **byte != b' ').count()
}

/// The words of a line that are left, which contracts see as their list.
#[derive(Debug, Drop)]
pub struct Words<'a> {
    text: &'a [u8],
    at: usize,
    is_done: bool,
}

impl<'a> Model for Words<'a> {
    ghost use Rattle.std.specs.Prelude.{List};
    ghost use Rattle.cert_lines.specs.Pieces.{Piece};
    ghost use Rattle.cert_lines.specs.Remaining.{words_left, IsWithin};

    ghost Value = { List Piece };

    ghost view = { λ w. words_left w.is_done w.at w.text.now };

    ghost invariant = { λ w. IsWithin w.at w.text.now };
}

impl<'a> Words<'a> {
    ghost use Rattle.std.specs.Prelude.{[], ◌∷◌, drop, MatchOption};
    ghost use Rattle.cert_lines.specs.Pieces.{words};
    ghost use Rattle.cert_lines.specs.Words.{piece_of};

    /// The words of the line that begins at `at` and ends with the text.
    pub fn new(text: &'a [u8], at: usize) -> Words<'a>
        requires within { at ≤ length text.now }
        requires small { length text.now ≤ 67108864 }
        ensures { result ≡ words at (drop at text.now) }
    {
        Words {
            text,
            at,
            is_done: false,
        }
    }

    /// Takes the next word, if there is one.
    pub fn next_word(&mut self) -> Option<Word<'a>>
        ensures { MatchOption result ((self.old ≡ []) × (self.new ≡ [])) (λ w. self.old ≡ piece_of w ∷ self.new) }
    {
        if self.is_done {
            return None;
        }
        let start = self.at;
        let end = start + word_len(&self.text[start..]);
        let word = Word {
            at: start as u32,
            bytes: &self.text[start..end],
        };
        if end < self.text.len() {
            self.at = end + 1;
            return Some(word);
        }
        self.is_done = true;
        Some(word)
    }
}
