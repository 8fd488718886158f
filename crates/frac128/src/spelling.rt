//! The shape that both texts of a fraction share: an optional `-`, digits, and optionally a mark with digits behind it.
//! Begin with `split_parts`.
ghost use Rattle.std.specs.Prelude.{◌≡◌, ◌≢◌, ◌++◌, slice_index, false, ◌+◌, ◌*◌, ◌<◌, ◌≤◌, ◌^◌, ◌↔◌, IsTrue, length, MatchOption};
ghost use Rattle.std.specs.Char.{is_ascii_digit};
ghost use Rattle.std.specs.Fmt.{sign_text};
ghost use Rattle.std.specs.List.{prefix_len};
ghost use Rattle.std.specs.Option.{option_copied};
ghost use Rattle.std.specs.Str.Parse.{IsNumeral, AllDigits, digits_value_after};
ghost use Rattle.frac128.specs.Bounds.{KeptNatural};
ghost use Rattle.frac128.specs.Text.{Spelling, Spells};

#[derive(Clone, Copy)]
pub(crate) struct Parts<'a> {
    pub(crate) negative: bool,
    pub(crate) top: &'a [u8],
    pub(crate) bottom: Option<&'a [u8]>,
}

// The parts of a text of this shape.
pub(crate) fn split_parts<'a>(text: &'a [u8], mark: u8) -> Option<Parts<'a>>
    requires { (46 ≤ mark) × (mark ≤ 47) }
    ensures { MatchOption result
        ((s : Spelling) → Spells mark text.now s → ⊥)
        (λ p. Spells mark text.now (record { negative = p.negative; top = p.top.now; bottom = option_copied p.bottom })) }
{
    let (negative, unsigned) = split_sign(text);
    let (top, rest) = unsigned.split_at(digit_count(unsigned));
    if top.is_empty() {
        return None;
    }
    match rest {
        [] => Some(Parts {
            negative,
            top,
            bottom: None,
        }),
        [first, bottom @ ..] if *first == mark && is_numeral(bottom) => Some(Parts {
            negative,
            top,
            bottom: Some(bottom),
        }),
        _ => None,
    }
}

// Whether the text begins with `-`, and what stands behind that.
fn split_sign(text: &[u8]) -> (bool, &[u8])
    ensures whole { text.now ≡ sign_text result.0 ++ result.1.now }
    ensures unsigned { result.0 ≡ false → slice_index text.now 0 ≢ 45 }
{
    match text {
        [b'-', unsigned @ ..] => (true, unsigned),
        _ => (false, text),
    }
}

// How many digits the text begins with.
fn digit_count(text: &[u8]) -> usize
    ensures { result ≡ prefix_len is_ascii_digit text.now }
{
    text.iter().take_while(|c| c.is_ascii_digit()).count()
}

// Whether the text is digits, at least one.
fn is_numeral(text: &[u8]) -> bool
    ensures { IsTrue result ↔ IsNumeral 10 text.now }
{
    !text.is_empty() && digit_count(text) == text.len()
}

const MOST: u128 = i128::MAX as u128;

// The number that the digits write after those of `start`.
pub(crate) fn number(start: u128, digits: &[u8]) -> Option<u128>
    requires digits { AllDigits 10 digits.now }
    requires start { start < 2 ^ 127 }
    ensures { KeptNatural (digits_value_after 10 start digits.now) result }
{
    let mut value = start;
    for digit in digits {
        value = shifted(value, *digit - b'0')?;
    }
    Some(value)
}

// The number with one more digit.
fn shifted(value: u128, digit: u8) -> Option<u128>
    requires value { value < 2 ^ 127 }
    requires digit { digit < 10 }
    ensures { KeptNatural (value * 10 + digit) result }
{
    if value > MOST / 10 {
        return None;
    }
    let sum = value * 10 + u128::from(digit);
    (sum <= MOST).then_some(sum)
}
