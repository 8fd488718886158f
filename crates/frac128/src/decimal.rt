//! Decimal numbers, as `-0.50`. Begin with `from_decimal`. The zeros at the end of the digits behind the point are
//! dropped first, so that they count for no limit.
ghost use Rattle.std.specs.Prelude.{◌≡◌, ◌<◌, ◌≤◌, ◌^◌, ◌++◌, IfSome, MatchOption};
ghost use Rattle.std.specs.Option.{option_copied};
ghost use Rattle.std.specs.Result.{result_ok};
ghost use Rattle.std.specs.Str.Parse.{IsNumeral, AllDigits, digits_value};
ghost use Rattle.frac128.specs.Bounds.{KeptNatural};
ghost use Rattle.frac128.specs.Decimal.{ReadsDecimal, counted, without_end_zeros};
ghost use Rattle.frac128.specs.Number.{number_of};

use crate::fraction::Frac;
use crate::spelling::{number, split_parts};
use crate::text::{NumFault, signed};

// The most digits behind the point: 10^38 is the greatest power of ten below 2^127.
const MOST_PLACES: usize = 38;

impl Frac {
    /// Reads an optional `-`, one or more digits, and optionally `.` with one or more digits.
    pub fn from_decimal(text: &[u8]) -> Result<Frac, NumFault>
        ensures reads { ReadsDecimal text.now result }
        ensures number { result_ok result ≡ number_of text.now }
    {
        let Some(parts) = split_parts(text, b'.') else {
            return Err(NumFault::Form);
        };
        let places = counted(parts.bottom);
        let Some(den) = power_of_ten(places.len()) else {
            return Err(NumFault::Wide);
        };
        let Some(size) = number_of_both(parts.top, places) else {
            return Err(NumFault::Wide);
        };
        Ok(Frac::ratio(signed(parts.negative, size), den as i128))
    }
}

// The digits behind the point that count, which are none without a point.
fn counted(bottom: Option<&[u8]>) -> &[u8]
    requires { IfSome (option_copied bottom) (IsNumeral 10) }
    ensures value { result.now ≡ counted (option_copied bottom.entry) }
    ensures digits { AllDigits 10 result.now }
{
    match bottom {
        Some(digits) => without_end_zeros(digits),
        None => &[],
    }
}

fn without_end_zeros(digits: &[u8]) -> &[u8]
    ensures { result.now ≡ without_end_zeros digits.now }
{
    let mut end = digits.len();
    while end > 0 && digits[end - 1] == b'0' {
        end -= 1;
    }
    &digits[..end]
}

fn power_of_ten(places: usize) -> Option<u128>
    ensures value { MatchOption result (38 < places) (λ power. (places ≤ 38) × (power ≡ 10 ^ places)) }
    ensures within { IfSome result (λ power. (0 < power) × (power < 2 ^ 127)) }
{
    if places > MOST_PLACES {
        None
    } else {
        Some(10u128.pow(places as u32))
    }
}

// The number that the digits of both make.
fn number_of_both(front: &[u8], back: &[u8]) -> Option<u128>
    requires front { AllDigits 10 front.now }
    requires back { AllDigits 10 back.now }
    ensures { KeptNatural (digits_value 10 (front.now ++ back.now)) result }
{
    number(number(0, front)?, back)
}
