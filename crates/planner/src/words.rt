//! The words behind the two file names: options with a value each, in any order and none twice. Begin with `limits_of`.
ghost use Rattle.std.specs.Prelude.{◌≡◌, ◌≤◌, ⊤, MatchOption};
ghost use Rattle.std.specs.Char.{is_ascii_digit};
ghost use Rattle.std.specs.List.{list_all};
ghost use Rattle.planner.specs.Words as words;
ghost use Rattle.planner.specs.Words.{IsLow};

use planner_text::Limits;

/// What the options say; none stands twice.
#[derive(Clone, Copy)]
pub(crate) struct Given {
    max_n: Option<u32>,
    steps: Option<u32>,
    pivots: Option<u32>,
}

fn is_digit(byte: &u8) -> bool
    ensures { result ≡ is_ascii_digit byte.now }
{
    byte.is_ascii_digit()
}

fn are_digits(bytes: &[u8]) -> bool
    ensures { result ≡ list_all is_ascii_digit bytes.now }
{
    bytes.iter().all(|byte| is_digit(byte))
}

/// One to eight digits.
fn is_short_numeral(digits: &[u8]) -> bool
    ensures { result ≡ words.is_short_numeral digits.now }
{
    !digits.is_empty() && digits.len() <= 8 && are_digits(digits)
}

/// The number that they write.
fn number(text: &str) -> Option<u32>
    ensures { result ≡ words.number text.now }
{
    if !is_short_numeral(text.as_bytes()) {
        return None;
    }
    text.parse::<u32>().ok()
}

/// The number in its range, where none was given before.
fn once(before: Option<u32>, text: &str, least: u32, most: u32) -> Option<u32>
    ensures { result ≡ words.once before text.now least most }
{
    if before.is_some() {
        return None;
    }
    let n = number(text)?;
    (least <= n && n <= most).then_some(n)
}

/// With one option more.
fn with_option(given: Given, name: &str, value: &str) -> Option<Given>
    requires { IsLow given }
    ensures value { result ≡ words.with_option given name.now value.now }
    ensures low { MatchOption result ⊤ IsLow }
{
    if name == "--max-n" {
        let max_n = once(given.max_n, value, 0, 1_000)?;
        return Some(Given {
            max_n: Some(max_n),
            ..given
        });
    }
    if name == "--steps" {
        let steps = once(given.steps, value, 1, 10_000_000)?;
        return Some(Given {
            steps: Some(steps),
            ..given
        });
    }
    if name == "--pivots" {
        let pivots = once(given.pivots, value, 1, 10_000_000)?;
        return Some(Given {
            pivots: Some(pivots),
            ..given
        });
    }
    None
}

/// With all of them.
fn with_options(mut given: Given, mut options: &[String]) -> Option<Given>
    requires { IsLow given }
    ensures value { result ≡ words.with_options given options.now }
    ensures low { MatchOption result ⊤ IsLow }
{
    'options: while let [name, value, more @ ..] = options {
        given = with_option(given, name.as_str(), value.as_str())?;
        options = more;
    }
    options.is_empty().then_some(given)
}

fn limits_with(given: Given) -> Limits
    ensures { result ≡ words.limits_with given }
{
    Limits {
        max_n: given.max_n.unwrap_or(20),
        steps: u64::from(given.steps.unwrap_or(100_000)),
        pivots: u64::from(given.pivots.unwrap_or(1_000_000)),
    }
}

/// The limits that the options set, where they are right.
pub(crate) fn limits_of(options: &[String]) -> Option<Limits>
    ensures value { result ≡ words.limits_of options.now }
    ensures low { MatchOption result ⊤ (λ l. l.max_n ≤ 1000) }
{
    let nothing = Given {
        max_n: None,
        steps: None,
        pivots: None,
    };
    let given = with_options(nothing, options)?;
    Some(limits_with(given))
}
