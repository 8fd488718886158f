//! Equality and the four operations are those of cross products: `a / b` is known by `a` and `b` up to a common factor.

ghost use Rattle.std.specs.Prelude.{◌≡◌, ◌≢◌, ◌↔◌, ℕ, ◌<◌, ◌*◌, ℤ, ◌+ℤ◌, ◌-ℤ◌, ◌*ℤ◌, pos, neg_ℤ};
ghost use Rattle.rational.specs.Fraction.{Fraction, IsQuotient, whole, quotient, neg_ℚ, inv_ℚ, ◌+ℚ◌, ◌-ℚ◌, ◌*ℚ◌, ◌/ℚ◌};

/// Two fractions are one exactly where their cross products are equal.
#[tactic(auto, using(crate::proofs::FieldLaws::same_iff_cross))]
pub fn equal_by_cross_products()
    ensures { (x y : Fraction) → (x ≡ y) ↔ (x.num *ℤ pos y.den ≡ y.num *ℤ pos x.den) }
{}

/// The quotient of a whole number and one above 0 is their fraction.
pub fn quotient_is_their_fraction()
    ensures { (z : ℤ) (d : ℕ) → 0 < d → IsQuotient (quotient z d) z d }
{}

/// The negative of `a / b` is `-a / b`.
pub fn negative_of_quotient()
    ensures { (x : Fraction) → IsQuotient (neg_ℚ x) (neg_ℤ x.num) x.den }
{}

/// A fraction that isn't 0 times its inverse is 1.
pub fn inverse_times_fraction()
    ensures { (x : Fraction) → x ≢ whole (pos 0) → x *ℚ inv_ℚ x ≡ whole (pos 1) }
{}

/// `a / b + c / d` is `(a * d + c * b) / (b * d)`.
#[tactic(auto, using(crate::proofs::FieldLaws::sum_is))]
pub fn sum_by_cross_products()
    ensures { (x y : Fraction) → IsQuotient (x +ℚ y) (x.num *ℤ pos y.den +ℤ y.num *ℤ pos x.den) (x.den * y.den) }
{}

/// `a / b - c / d` is `(a * d - c * b) / (b * d)`.
#[tactic(auto, using(crate::proofs::FieldLaws::difference_is))]
pub fn difference_by_cross_products()
    ensures { (x y : Fraction) → IsQuotient (x -ℚ y) (x.num *ℤ pos y.den -ℤ y.num *ℤ pos x.den) (x.den * y.den) }
{}

/// `a / b` times `c / d` is `(a * c) / (b * d)`.
#[tactic(auto, using(crate::proofs::FieldLaws::product_is))]
pub fn product_by_cross_products()
    ensures { (x y : Fraction) → IsQuotient (x *ℚ y) (x.num *ℤ y.num) (x.den * y.den) }
{}

/// `a / b` divided by `c / d` is `(a * d) / (b * c)`, where `c` isn't 0. It is told as an equation, since `c` may be below 0.
#[tactic(auto, using(crate::proofs::Division::div_cross))]
pub fn division_by_cross_products()
    ensures { (x y : Fraction) → y ≢ whole (pos 0)
        → (x /ℚ y).num *ℤ (pos x.den *ℤ y.num) ≡ (x.num *ℤ pos y.den) *ℤ pos (x /ℚ y).den }
{}
