//! What sums, multiples and substitutions mean: their values at every point, and their coefficients. The functions do nothing:
//! each stands for the law that it ensures.
ghost use Rattle.std.specs.Prelude.{◌≡◌, ℕ};
ghost use Rattle.rational.specs.Fraction.{Fraction, ◌+ℚ◌, ◌*ℚ◌};
ghost use Rattle.rational.specs.Linear.{coefficient_of};
ghost use Rattle.lin.specs.Linear.{Linear, value_of, fixed, var, add, scale, subst};

/// A constant has its own value, and a variable that of the point.
#[tactic(auto, using(crate::proofs::ValueLaws::value_fixed, crate::proofs::ValueLaws::value_var))]
pub fn value_of_the_simplest()
    ensures fixed { (at : ℕ → Fraction) (c : Fraction) → value_of at (fixed c) ≡ c }
    ensures var { (at : ℕ → Fraction) (v : ℕ) → value_of at (var v) ≡ at v }
{}

#[tactic(auto, using(crate::proofs::ValueLaws::value_add))]
pub fn value_of_sum()
    ensures { (at : ℕ → Fraction) (l m : Linear) → value_of at (add l m) ≡ value_of at l +ℚ value_of at m }
{}

#[tactic(auto, using(crate::proofs::ValueLaws::value_scale))]
pub fn value_of_multiple()
    ensures { (at : ℕ → Fraction) (c : Fraction) (l : Linear) → value_of at (scale c l) ≡ c *ℚ value_of at l }
{}

/// It is the value at the values of the replacements.
#[tactic(auto, using(crate::proofs::ValueLaws::value_subst))]
pub fn value_of_substitution()
    ensures { (at : ℕ → Fraction) (of : ℕ → Linear) (l : Linear) → value_of at (subst of l) ≡ value_of (λ v. value_of at (of v)) l }
{}

#[tactic(auto, using(crate::proofs::ValueLaws::coefficient_add, crate::proofs::ValueLaws::coefficient_scale))]
pub fn coefficients()
    ensures sum { (v : ℕ) (l m : Linear) → coefficient_of v (add l m).terms ≡ coefficient_of v l.terms +ℚ coefficient_of v m.terms }
    ensures multiple { (v : ℕ) (c : Fraction) (l : Linear) → coefficient_of v (scale c l).terms ≡ c *ℚ coefficient_of v l.terms }
{}
