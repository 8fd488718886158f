//! The order of the fractions is that of cross products, since denominators are above 0.

ghost use Rattle.std.specs.Prelude.{◌↔◌, ◌⊎◌, ◌*ℤ◌, ◌≤ℤ◌, ◌<ℤ◌, pos};
ghost use Rattle.rational.specs.Fraction.{Fraction, ◌≤ℚ◌, ◌<ℚ◌};

/// `a / b ≤ c / d` exactly where `a * d ≤ c * b`.
#[tactic(auto, using(crate::proofs::OrderLaws::order_laws))]
pub fn at_most_by_cross_products()
    ensures { (x y : Fraction) → (x ≤ℚ y) ↔ ((x.num *ℤ pos y.den) ≤ℤ (y.num *ℤ pos x.den)) }
{}

/// `a / b < c / d` exactly where `a * d < c * b`.
#[tactic(auto, using(crate::proofs::OrderLaws::order_laws))]
pub fn below_by_cross_products()
    ensures { (x y : Fraction) → (x <ℚ y) ↔ ((x.num *ℤ pos y.den) <ℤ (y.num *ℤ pos x.den)) }
{}

/// The order is total, and `<` is exactly what `≥` leaves.
#[tactic(auto, using(crate::proofs::OrderLaws::order_laws, crate::proofs::OrderLaws::at_most_or_above))]
pub fn order_is_total()
    ensures either { (x y : Fraction) → (x ≤ℚ y) ⊎ (y <ℚ x) }
    ensures not_both { (x y : Fraction) → (x <ℚ y) ↔ (¬ (y ≤ℚ x)) }
{}
