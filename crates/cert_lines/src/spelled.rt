//! What a word is.
ghost use Rattle.std.specs.Prelude.{◌≡◌, ◌==◌, ◌||◌, not, length};
ghost use Rattle.std.specs.Char.{is_ascii_digit};
ghost use Rattle.std.specs.List.{list_all};
ghost use Rattle.sexpr.specs.Bytes.{is_in_word};
ghost use Rattle.cert_lines.specs.Spelled as spelled;

use sexpr::{Class, class_at};

fn are_digits(bytes: &[u8]) -> bool
    ensures { result ≡ list_all is_ascii_digit bytes.now }
{
    bytes.iter().all(|b| b.is_ascii_digit())
}

/// Whether the first of some digits is no zero, or stands alone.
fn is_plain(first: u8, more: &[u8]) -> bool
    ensures { result ≡ (length more.now == 0 || not (first == 48)) }
{
    more.is_empty() || first != b'0'
}

/// Whether a word is digits, of which the first is no zero unless it stands alone.
pub fn is_number(word: &[u8]) -> bool
    ensures { result ≡ spelled.is_number word.now }
{
    match word {
        [] => false,
        [first, more @ ..] => are_digits(word) && is_plain(*first, more),
    }
}

/// Whether a word ends a list.
pub fn is_mark(word: &[u8]) -> bool
    ensures { result ≡ spelled.is_mark word.now }
{
    word == b";".as_slice()
}

fn are_in_words(bytes: &[u8]) -> bool
    ensures { result ≡ list_all is_in_word bytes.now }
{
    bytes.iter().all(|b| class_at(*b) == Class::InWord)
}

/// Whether a word is one of a text, and so may stand in the place of a fraction.
pub fn is_text_word(word: &[u8]) -> bool
    ensures { result ≡ spelled.is_text_word word.now }
{
    match word {
        [] => false,
        bytes => are_in_words(bytes),
    }
}

fn is_truth_digit(byte: u8) -> bool
    ensures { result ≡ spelled.is_truth_digit byte }
{
    byte == b'0' || byte == b'1'
}

fn are_truth_digits(bytes: &[u8]) -> bool
    ensures { result ≡ list_all spelled.is_truth_digit bytes.now }
{
    bytes.iter().all(|b| is_truth_digit(*b))
}

/// Whether a word is digits 0 and 1.
pub fn are_truths(word: &[u8]) -> bool
    ensures { result ≡ spelled.are_truths word.now }
{
    match word {
        [] => false,
        bytes => are_truth_digits(bytes),
    }
}

fn is_name_byte(byte: u8) -> bool
    ensures { result ≡ spelled.is_name_byte byte }
{
    class_at(byte) == Class::InWord && byte.to_ascii_lowercase() == byte
}

fn begins_name(byte: u8) -> bool
    ensures { result ≡ spelled.begins_name byte }
{
    byte.is_ascii_lowercase() || byte == b'_'
}

fn are_name_bytes(bytes: &[u8]) -> bool
    ensures { result ≡ list_all spelled.is_name_byte bytes.now }
{
    bytes.iter().all(|b| is_name_byte(*b))
}

/// Whether a word is a name in lower case.
pub fn is_name(word: &[u8]) -> bool
    ensures { result ≡ spelled.is_name word.now }
{
    match word {
        [] => false,
        [first, more @ ..] => begins_name(*first) && are_name_bytes(more),
    }
}

/// Whether a word is a name with a closing parenthesis behind it.
pub(crate) fn is_last_name(word: &[u8]) -> bool
    ensures { result ≡ spelled.is_last_name word.now }
{
    match word {
        [name @ .., b')'] => is_name(name),
        _ => false,
    }
}
