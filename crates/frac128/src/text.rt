//! The text of a fraction: `n`, or `n/d`. Begin with `to_text` and `from_text`, which reads exactly what `to_text`
//! writes.
ghost use Rattle.std.specs.Prelude.{◌≡◌, ◌++◌, ◌<◌, ◌^◌, ◌↔◌, pos, ◌<ℤ◌, IsTrue, OnOk, OnErr, IfSome, length};
ghost use Rattle.std.specs.Option.{option_copied};
ghost use Rattle.std.specs.Str.Parse.{IsNumeral};
ghost use Rattle.frac128.specs.Bounds.{IsWithin, KeptNatural};
ghost use Rattle.frac128.specs.Text.{text_of, value_behind, signed, IsPlain, IsNumerator, IsDenominator, ReadsFraction, MakesReduced};

use crate::backward::Backward;
use crate::fraction::{Frac, lowest};
use crate::gcd::divisor;
use crate::spelling::{number, split_parts};
use std::alloc::AllocError;
use thiserror::Error;

/// Why a text gives no fraction. `Form`: it isn't of the form, or isn't in lowest terms. `Wide`: one of its numbers is
/// past 2^127 - 1, or more than 38 digits behind the point count.
#[derive(Clone, Copy, PartialEq, Eq, Debug, Error)]
pub enum NumFault {
    #[error("not of the form of a number")]
    Form,
    #[error("a number past 128 bits")]
    Wide,
}

impl Frac {
    /// Appends `n`, or `n/d` where the denominator is 2 or more.
    pub fn to_text(&self, into: &mut Vec<u8>) -> Result<(), AllocError>
        ensures ok { OnOk result (into.new.items ≡ into.old.items ++ text_of self.now) }
        ensures err { OnErr result (into.new.items ≡ into.old.items) }
    {
        let mut text = Backward::new();
        if !self.is_whole() {
            text.put_digits(self.den().unsigned_abs());
            text.put(b'/');
        }
        text.put_digits(self.num().unsigned_abs());
        if self.num() < 0 {
            text.put(b'-');
        }
        into.extend_from_slice(text.as_slice())
    }

    /// Reads what `to_text` writes, and nothing else.
    pub fn from_text(text: &[u8]) -> Result<Frac, NumFault>
        ensures { ReadsFraction text.now result }
    {
        let Some(parts) = split_parts(text, b'/') else {
            return Err(NumFault::Form);
        };
        if !is_numerator(parts.negative, parts.top) || !is_denominator(parts.bottom) {
            return Err(NumFault::Form);
        }
        let Some(size) = number(0, parts.top) else {
            return Err(NumFault::Wide);
        };
        let Some(den) = number_behind(parts.bottom) else {
            return Err(NumFault::Wide);
        };
        make_reduced(signed(parts.negative, size), den as i128)
    }
}

// Whether the digits in front are of the form: `0` alone may start with 0, and not after a `-`.
fn is_numerator(negative: bool, digits: &[u8]) -> bool
    requires { IsNumeral 10 digits.now }
    ensures { IsTrue result ↔ IsNumerator negative digits.now }
{
    is_plain(digits) && !(negative && digits[0] == b'0')
}

// Whether the digits behind `/`, if there are any, are of the form: plain, and neither `0` nor `1`.
fn is_denominator(digits: Option<&[u8]>) -> bool
    requires { IfSome (option_copied digits) (IsNumeral 10) }
    ensures { IsTrue result ↔ IsDenominator (option_copied digits.entry) }
{
    match digits {
        Some(digits) => is_plain(digits) && (digits.len() > 1 || digits[0] > b'1'),
        None => true,
    }
}

// The number behind `/`, or 1 where there is none.
fn number_behind(digits: Option<&[u8]>) -> Option<u128>
    requires { IfSome (option_copied digits) (IsNumeral 10) }
    ensures { KeptNatural (value_behind (option_copied digits.entry)) result }
{
    match digits {
        Some(digits) => number(0, digits),
        None => Some(1),
    }
}

pub(crate) fn signed(negative: bool, size: u128) -> i128
    requires { size < 2 ^ 127 }
    ensures value { result ≡ signed negative size }
    ensures within { IsWithin result }
{
    if negative {
        -(size as i128)
    } else {
        size as i128
    }
}

// Whether only `0` starts with 0.
fn is_plain(digits: &[u8]) -> bool
    requires { 0 < length digits.now }
    ensures { IsTrue result ↔ IsPlain digits.now }
{
    digits[0] != b'0' || digits.len() == 1
}

// The fraction of two numbers that have no common divisor.
fn make_reduced(num: i128, den: i128) -> Result<Frac, NumFault>
    requires positive { pos 0 <ℤ den }
    requires within { IsWithin num }
    ensures { MakesReduced num den result }
{
    if divisor(num, den) == 1 {
        Ok(lowest(num, den))
    } else {
        Err(NumFault::Form)
    }
}
