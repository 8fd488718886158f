//! The greatest common divisor. Begin with `divisor`. Euclid's remainders bring both numbers below 64 bits, and Stein's
//! binary method, which needs no division, does the rest.
ghost use Rattle.std.specs.Prelude.{◌≡◌, ◌*◌, ◌%◌, ◌<◌, ◌^◌, pos, ◌<ℤ◌, unsigned_abs};
ghost use Rattle.std.specs.Int.{w64, trailing_zeros};
ghost use Rattle.algebra.specs.Gcd.{gcd};

const HALF: u128 = u64::MAX as u128;

// The greatest common divisor of a numerator and a denominator.
pub(crate) fn divisor(num: i128, den: i128) -> u128
    requires { pos 0 <ℤ den }
    ensures value { result ≡ gcd (unsigned_abs num) (unsigned_abs den) }
    ensures positive { 0 < result }
    ensures bound { result < 2 ^ 127 }
{
    common_divisor(num.unsigned_abs(), den.unsigned_abs())
}

fn common_divisor(a: u128, b: u128) -> u128
    ensures { result ≡ gcd a b }
{
    let mut x = a;
    let mut y = b;
    while y > 1 {
        if x <= HALF && y <= HALF {
            return u128::from(binary_divisor(x as u64, y as u64));
        }
        let rest = x % y;
        x = y;
        y = rest;
    }
    if y == 1 { 1 } else { x }
}

// What two numbers share: the powers of two that both have, and what their odd parts share. The difference of two odd
// numbers is even, so each turn takes at least one bit away.
fn binary_divisor(a: u64, b: u64) -> u64
    requires { 0 < b }
    ensures { result ≡ gcd a b }
{
    if a == 0 {
        return b;
    }
    let mut x = odd_part(a);
    let mut y = odd_part(b);
    while x != y {
        let difference = x.abs_diff(y);
        y = x.min(y);
        x = odd_part(difference);
    }
    x << a.trailing_zeros().min(b.trailing_zeros())
}

// The number without its factors of two.
fn odd_part(n: u64) -> u64
    requires { 0 < n }
    ensures odd { result % 2 ≡ 1 }
    ensures value { result * 2 ^ trailing_zeros w64 n ≡ n }
{
    n >> n.trailing_zeros()
}
