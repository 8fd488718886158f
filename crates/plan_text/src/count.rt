//! Counts: how often a step is repeated.
ghost use Rattle.std.specs.Prelude.{◌≡◌, true, None, Some, if◌then◌else◌};
ghost use Rattle.std.specs.Char.{is_ascii_digit};
ghost use Rattle.std.specs.List.{list_all};
ghost use Rattle.std.specs.Str.Parse.{digits_value};
ghost use Rattle.plan_text.specs.PlanText.{is_miscount};
ghost use Rattle.plan_text.specs.Written.{is_count};

/// The greatest count.
const MOST: u128 = i128::MAX as u128;

fn are_digits(bytes: &[u8]) -> bool
    ensures { result ≡ list_all is_ascii_digit bytes.now }
{
    bytes.iter().all(|byte| byte.is_ascii_digit())
}

/// Whether a word is one or more digits.
pub(crate) fn is_count(word: &str) -> bool
    ensures { result ≡ is_count word.now }
{
    match word.as_bytes() {
        [] => false,
        bytes => are_digits(bytes),
    }
}

/// The count that digits write, without a zero in front.
pub(crate) fn find_count(digits: &str) -> Option<u128>
    requires { is_count digits.now ≡ true }
    ensures { result ≡ (if is_miscount digits.now then None else Some (digits_value 10 digits.now)) }
{
    if digits.as_bytes()[0] == b'0' {
        return None;
    }
    match digits.parse::<u128>() {
        Ok(count) => { if count <= MOST { Some(count) } else { None } }
        Err(_) => None,
    }
}
