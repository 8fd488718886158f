//! Rounding down and up, and whole fractions.

ghost use Rattle.std.specs.Prelude.{◌≡◌, ◌↔◌, ◌⊎◌, ℤ, ◌+ℤ◌, ◌≤ℤ◌, pos};
ghost use Rattle.rational.specs.Fraction.{Fraction, whole, ◌≤ℚ◌, ◌<ℚ◌};
ghost use Rattle.rational.specs.Floor.{floor_of, ceil_of, IsWhole};

/// The floor of `x` is at most `x`, and `x` is below the whole number after it.
#[tactic(auto, using(crate::proofs::FloorLaws::floor_below, crate::proofs::FloorLaws::floor_above))]
pub fn floor_bounds()
    ensures below { (x : Fraction) → whole (floor_of x) ≤ℚ x }
    ensures above { (x : Fraction) → x <ℚ whole (floor_of x +ℤ pos 1) }
{}

/// The floor is the greatest whole number that is at most `x`.
#[tactic(auto, using(crate::proofs::FloorLaws::rounding_laws))]
pub fn floor_is_greatest()
    ensures { (x : Fraction) (z : ℤ) → (whole z ≤ℚ x) ↔ (z ≤ℤ floor_of x) }
{}

/// The ceiling is the least whole number that is at least `x`.
#[tactic(auto, using(crate::proofs::FloorLaws::rounding_laws))]
pub fn ceil_is_least()
    ensures { (x : Fraction) (z : ℤ) → (x ≤ℚ whole z) ↔ (ceil_of x ≤ℤ z) }
{}

/// A fraction is whole exactly where it is its own floor.
#[tactic(auto, using(crate::proofs::FloorLaws::rounding_laws))]
pub fn whole_is_its_floor()
    ensures { (x : Fraction) → IsWhole x ↔ (whole (floor_of x) ≡ x) }
{}

/// A whole fraction is at most `z` or at least `z + 1`: a split between the two loses no whole value.
#[tactic(auto, using(crate::proofs::FloorLaws::whole_either_side))]
pub fn whole_is_on_one_side()
    ensures { (x : Fraction) (z : ℤ) → IsWhole x → (x ≤ℚ whole z) ⊎ (whole (z +ℤ pos 1) ≤ℚ x) }
{}
