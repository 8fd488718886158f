//! What the answers of this crate mean. The functions do nothing: each stands for the law that it ensures.
ghost use Rattle.std.specs.Prelude.{◌≡◌, ◌↔◌, ℕ, Bool, true, List, All};
ghost use Rattle.rational.specs.Fraction.{Fraction};
ghost use Rattle.formula.specs.declared.atom.Lit.{Lit};
ghost use Rattle.formula.specs.Contents.{Contents, IsFormula};
ghost use Rattle.formula.specs.Reading.{Holds};
ghost use Rattle.formula.specs.Meets.{are_met, HasTrue};
ghost use Rattle.formula.specs.Farkas.{taken, IsFarkas};

/// Where `farkas` answers true, the readings of the negated literals hold together at no point.
pub fn refuted_readings_hold_nowhere()
    ensures { (f : Contents) (lits : List Lit) (coefs : List Fraction) (point : ℕ → Fraction) → IsFormula f
        → IsFarkas (taken f lits coefs) → ¬ (All (λ t. Holds point t.0) (taken f lits coefs)) }
{}

/// Clauses are met exactly where each has a true literal.
pub fn clauses_are_met_by_true_literals()
    ensures { (truth : List Bool) (clauses : List (List Lit)) → (are_met truth clauses ≡ true) ↔ All (HasTrue truth) clauses }
{}
