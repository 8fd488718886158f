//! Farkas' lemma, the half that refutes.

ghost use Rattle.std.specs.Prelude.{All, ℕ, List};
ghost use Rattle.rational.specs.Fraction.{Fraction};
ghost use Rattle.rational.specs.Farkas.{Row, IsTrueAt, IsRefutation};

/// Inequalities whose multiples cancel each variable and leave a bound that fails are true together at no point.
pub fn refuted_rows_hold_nowhere()
    ensures { (rows : List Row) (point : ℕ → Fraction) → IsRefutation rows → ¬ (All (λ r. IsTrueAt point r) rows) }
{}
