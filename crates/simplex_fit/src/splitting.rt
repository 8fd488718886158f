//! The bounds of one more atom `v <= k` of a count.
ghost use Rattle.std.specs.Prelude.{◌≡◌, Bool, List, true, Some, slice_get, pos, ◌+ℤ◌};
ghost use Rattle.rational.specs.Fraction.{whole, ◌+ℚ◌};
ghost use Rattle.rational.specs.Floor.{IsWhole};
ghost use Rattle.frac128.specs.Bounds.{IsFrac, IsWithin};
ghost use Rattle.lin.specs.Linear.{Linear};
ghost use Rattle.theory_law.specs.Splits.{at_most};
ghost use Rattle.simplex_atoms.specs.Sides.{sides_of_atom};

use frac128::Frac;
use simplex_atoms::Sides;
use simplex_law::Bound;

fn plus_one(n: i128) -> i128
    requires { IsWithin (n +ℤ pos 1) }
    ensures value { result ≡ n +ℤ pos 1 }
    ensures within { IsWithin result }
{
    n + 1
}

fn successor(k: &Frac) -> Frac
    requires whole { IsWhole k.now }
    requires next { IsFrac (k.now +ℚ whole (pos 1)) }
    ensures { result ≡ k.now +ℚ whole (pos 1) }
{
    Frac::ratio(plus_one(k.num()), 1)
}

/// From above by k where it is true, and from below by `k + 1` where it is false.
pub fn split_sides(variable: u64, k: Frac) -> Sides
    requires whole { IsWhole k }
    requires next { IsFrac (k +ℚ whole (pos 1)) }
    ensures { (counts : List Bool) (rows : List Linear) → slice_get counts variable ≡ Some true → result ≡ sides_of_atom counts rows (at_most variable k) }
{
    let upper = Bound {
        value: k,
        strict: false,
    };
    let lower = Bound {
        value: successor(&k),
        strict: false,
    };
    Sides {
        variable,
        upper,
        lower,
    }
}
