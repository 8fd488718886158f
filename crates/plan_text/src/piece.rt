//! The words and parentheses of a text, one after another. Begin with `find_piece`, which passes over all other bytes:
//! whoever has comments or foreign bytes looks for them first.
ghost use Rattle.std.specs.Prelude.{◌≡◌, ◌≤◌, [], length, drop, MatchOption};
ghost use Rattle.std.specs.List.{prefix_len};
ghost use Rattle.sexpr.specs.Tokens.{tokens};
ghost use Rattle.plan_text.specs.inside.Pieces.{is_gap, StandsFirst};

use sexpr::{Class, class_at, word_len};

#[derive(Clone, Copy)]
pub(crate) enum Kind {
    Open,
    Close,
    Word,
}

/// A word or a parenthesis, which stands at `start..end`.
#[derive(Clone, Copy)]
pub(crate) struct Piece {
    pub(crate) kind: Kind,
    pub(crate) start: usize,
    pub(crate) end: usize,
}

/// How many bytes there are before the first word or parenthesis, or in all.
fn gap_len(bytes: &[u8]) -> usize
    ensures { result ≡ prefix_len is_gap bytes.now }
{
    bytes
        .iter()
        .take_while(|byte| {
            matches!(
                class_at(**byte),
                Class::White | Class::Semicolon | Class::Foreign
            )
        })
        .count()
}

/// The first word or parenthesis that begins at a place or after it.
pub(crate) fn find_piece(text: &[u8], from: usize) -> Option<Piece>
    requires small { length text.now ≤ 67108864 }
    requires within { from ≤ length text.now }
    ensures { MatchOption result (tokens from (drop from text.now) ≡ []) (StandsFirst text.now from) }
{
    let start = from + gap_len(&text[from..]);
    if start >= text.len() {
        return None;
    }
    let (kind, end) = match class_at(text[start]) {
        Class::Opens => (Kind::Open, start + 1),
        Class::Closes => (Kind::Close, start + 1),
        _ => (Kind::Word, start + word_len(&text[start..])),
    };
    Some(Piece { kind, start, end })
}
