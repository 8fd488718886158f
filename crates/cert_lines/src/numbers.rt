//! Numbers as words. Begin with `read_number`.
ghost use Rattle.std.specs.Prelude.{◌≡◌, ◌+◌, ◌*◌, ◌<◌, ◌^◌, true};
ghost use Rattle.frac128.specs.Bounds.{KeptNatural};
ghost use Rattle.cert_lines.specs.Spelled as spelled;
ghost use Rattle.cert_lines.specs.Found.{Answers};
ghost use Rattle.cert_lines.specs.Lists as lists;
ghost use Rattle.cert_lines.specs.Words.{piece_of};

use crate::refusal::{CertRefusal, misshapen, out_of_range};
use crate::spelled::is_number;
use crate::word::{Word, Words};
use sqlite_items::Items;
use std::alloc::Global;

/// The greatest number that a certificate shows, but for counts.
const MOST: u128 = i64::MAX as u128;

/// The greatest count.
const MOST_OFTEN: u128 = i128::MAX as u128;

/// The number with one more digit.
fn shifted(value: u128, digit: u8) -> Option<u128>
    requires value { value < 2 ^ 127 }
    requires digit { digit < 10 }
    ensures { KeptNatural (value * 10 + digit) result }
{
    if value > MOST_OFTEN / 10 {
        return None;
    }
    let sum = value * 10 + u128::from(digit);
    (sum <= MOST_OFTEN).then_some(sum)
}

/// The number that digits write, or none past 2^127 - 1.
fn parse_value(digits: &[u8]) -> Option<u128>
    requires { spelled.is_number digits.now ≡ true }
    ensures { KeptNatural (spelled.value digits.now) result }
{
    let mut value = 0;
    for digit in digits {
        value = shifted(value, *digit - b'0')?;
    }
    Some(value)
}

/// The number from 0 that is shown from 1.
#[tactic(auto, unfolding(crate::specs::Spelled::from_one))]
pub fn parse_from_one(digits: &[u8]) -> Option<u64>
    requires { spelled.is_number digits.now ≡ true }
    ensures { result ≡ spelled.from_one (spelled.value digits.now) }
{
    let value = parse_value(digits)?;
    if value >= 1 && value <= MOST {
        Some((value - 1) as u64)
    } else {
        None
    }
}

/// The number that is shown as it is.
#[tactic(auto, unfolding(crate::specs::Spelled::from_zero))]
pub fn parse_from_zero(digits: &[u8]) -> Option<u64>
    requires { spelled.is_number digits.now ≡ true }
    ensures { result ≡ spelled.from_zero (spelled.value digits.now) }
{
    let value = parse_value(digits)?;
    if value <= MOST {
        Some(value as u64)
    } else {
        None
    }
}

/// Whether a number may count the repetitions of a plan's step.
#[tactic(auto, unfolding(crate::specs::Spelled::is_plan_count))]
pub fn is_plan_count(digits: &[u8]) -> bool
    requires { spelled.is_number digits.now ≡ true }
    ensures { result ≡ spelled.is_plan_count (spelled.value digits.now) }
{
    match parse_value(digits) {
        Some(value) => value >= 1,
        None => false,
    }
}

/// The number of a variable, a clause or a Boolean.
pub fn read_number(word: &Word<'_>) -> Result<u64, CertRefusal>
    ensures { Answers (lists.number_at (piece_of word.now)) result }
{
    if !is_number(word.bytes) {
        return Err(misshapen(word.at));
    }
    match parse_from_one(word.bytes) {
        Some(number) => Ok(number),
        None => Err(out_of_range(word.at)),
    }
}

/// The numbers that all words are.
pub fn read_numbers(alloc: Global, words: &mut Words) -> Result<Items<u64>, CertRefusal>
    ensures { Answers (lists.numbers_at words.old) result }
{
    let mut numbers = Items::new(alloc);
    'numbers: while let Some(word) = words.next_word() {
        numbers.push(read_number(&word)?)?;
    }
    Ok(numbers)
}

/// Whether all words are numbers.
pub fn are_numbers(words: &mut Words) -> bool
    ensures { result ≡ lists.are_numbers words.old }
{
    'numbers: while let Some(word) = words.next_word() {
        if !is_number(word.bytes) {
            return false;
        }
    }
    true
}
