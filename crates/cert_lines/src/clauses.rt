//! Clauses as words: literals whose Booleans rise. Begin with `read_clause`.
ghost use Rattle.std.specs.Prelude.{◌≡◌, ◌&&◌, [], ◌∷◌, ◌++◌, length, true, None, Some, nat_lt, OnOk, MatchBool};
ghost use Rattle.std.specs.Str.Parse.{starts_with_minus};
ghost use Rattle.cert_lines.specs.Spelled as spelled;
ghost use Rattle.cert_lines.specs.Found.{Answers};
ghost use Rattle.cert_lines.specs.Marks.{behind};
ghost use Rattle.cert_lines.specs.Clauses as clauses;
ghost use Rattle.cert_lines.specs.Words.{piece_of};

use crate::numbers::parse_from_one;
use crate::refusal::{CertRefusal, misshapen, out_of_range};
use crate::spelled::{is_mark, is_number};
use crate::word::{Word, Words};
use formula::{Clause, Lit};
use std::alloc::{AllocError, Global};

fn is_negative(word: &[u8]) -> bool
    ensures { result ≡ starts_with_minus word.now }
{
    match word {
        [first, ..] => *first == b'-',
        [] => false,
    }
}

/// The digits of a literal.
fn unsigned(word: &[u8]) -> &[u8]
    ensures { result.now ≡ spelled.unsigned word.now }
{
    if is_negative(word) { &word[1..] } else { word }
}

/// Whether one number is below another of as many digits.
fn is_before(x: &[u8], y: &[u8]) -> bool
    requires x { spelled.is_number x.now ≡ true }
    requires y { spelled.is_number y.now ≡ true }
    requires len { length x.now ≡ length y.now }
    ensures { result ≡ nat_lt (spelled.value x.now) (spelled.value y.now) }
{
    for (place, digit) in x.iter().enumerate() {
        if *digit != y[place] {
            return *digit < y[place];
        }
    }
    false
}

/// Whether digits are a number above the last one, if there is one, however long both are.
fn may_follow(last: &[u8], digits: &[u8]) -> bool
    requires { clauses.is_last last.now ≡ true }
    ensures { result ≡ (spelled.is_number digits.now && clauses.is_above last.now digits.now) }
{
    if !is_number(digits) {
        return false;
    }
    if last.is_empty() {
        return true;
    }
    if last.len() == digits.len() {
        is_before(last, digits)
    } else {
        last.len() < digits.len()
    }
}

/// Passes over a clause and the `;` behind it, where its literals rise. After false nothing is known of what is left.
pub fn skip_clause(words: &mut Words) -> bool
    ensures { MatchBool result (clauses.behind_clause words.old ≡ Some words.new) (clauses.behind_clause words.old ≡ None) }
{
    let mut last: &[u8] = b"";
    'literals: while let Some(word) = words.next_word() {
        if is_mark(word.bytes) {
            return true;
        }
        let digits = unsigned(word.bytes);
        if !may_follow(last, digits) {
            return false;
        }
        last = digits;
    }
    false
}

/// Whether all words are literals that rise.
pub fn are_rising(words: &mut Words) -> bool
    ensures { result ≡ clauses.are_rising words.old }
{
    let mut last: &[u8] = b"";
    'literals: while let Some(word) = words.next_word() {
        let digits = unsigned(word.bytes);
        if !may_follow(last, digits) {
            return false;
        }
        last = digits;
    }
    true
}

fn read_literal(word: &Word<'_>) -> Result<Lit, CertRefusal>
    ensures { Answers (clauses.literal_at (piece_of word.now)) result }
{
    let digits = unsigned(word.bytes);
    if !is_number(digits) {
        return Err(misshapen(word.at));
    }
    match parse_from_one(digits) {
        Some(boolean) => Ok(Lit {
            boolean,
            pos: !is_negative(word.bytes),
        }),
        None => Err(out_of_range(word.at)),
    }
}

fn push_literal(lits: &mut Vec<Lit>, lit: Lit) -> Result<(), AllocError>
    ensures { OnOk result (lits.new.items ≡ lits.old.items ++ lit ∷ []) }
{
    lits.push(lit)?;
    Ok(())
}

/// The clause of the literals up to a `;` or to the end of the line.
pub fn read_clause(alloc: Global, words: &mut Words) -> Result<Clause, CertRefusal>
    ensures clause { Answers (clauses.clause_at words.old) result }
    ensures rest { OnOk result (words.new ≡ behind words.old) }
{
    let mut lits = Vec::new(alloc);
    'literals: while let Some(word) = words.next_word() {
        if is_mark(word.bytes) {
            return Ok(Clause::new(lits));
        }
        let lit = read_literal(&word)?;
        push_literal(&mut lits, lit)?;
    }
    Ok(Clause::new(lits))
}
