//! Instances: `(NAME ARG ..)`.
ghost use Rattle.std.specs.Prelude.{◌≡◌, Some, None, MatchBool};
ghost use Rattle.cert_lines.specs.Calls.{behind_names, behind_instance};

use crate::spelled::{is_last_name, is_name};
use crate::word::Words;

/// Passes over names up to the closing parenthesis; the first one is given.
fn skip_names(first: &[u8], words: &mut Words) -> bool
    ensures { MatchBool result (behind_names first.now words.old ≡ Some words.new) (behind_names first.now words.old ≡ None) }
{
    let mut name = first;
    'names: while !is_last_name(name) {
        if !is_name(name) {
            return false;
        }
        let Some(word) = words.next_word() else {
            return false;
        };
        name = word.bytes;
    }
    true
}

/// Passes over an instance. After false nothing is known of what is left.
pub fn skip_instance(words: &mut Words) -> bool
    ensures { MatchBool result (behind_instance words.old ≡ Some words.new) (behind_instance words.old ≡ None) }
{
    let Some(word) = words.next_word() else {
        return false;
    };
    match word.bytes {
        [b'(', name @ ..] => skip_names(name, words),
        _ => false,
    }
}
