//! What a lemma means. The function does nothing: it stands for the law that it ensures.
ghost use Rattle.std.specs.Prelude.{◌≡◌, List, Bool, length};
ghost use Rattle.std.specs.declared.option.Option.{Option};
ghost use Rattle.std.specs.List.{Any};
ghost use Rattle.rational.specs.Fraction.{Fraction};
ghost use Rattle.formula.specs.declared.atom.Atom.{Atom};
ghost use Rattle.formula.specs.declared.atom.Lit.{Lit};
ghost use Rattle.formula.specs.Meets.{AreWhole};
ghost use Rattle.theory_law.specs.declared.trace.Coefs.{Coefs};
ghost use Rattle.theory_law.specs.Readings.{Reads};
ghost use Rattle.farkas_law.specs.Lemma.{IsShown};

/// At every point with whole counts some literal of a lemma has a reading that holds.
pub fn shown_lemma_holds()
    ensures { (counts : List Bool) (atoms : List (Option Atom)) (clause : List Lit) (why : Coefs) → IsShown counts atoms clause why
        → (values : List Fraction) → length values ≡ length counts → AreWhole counts values → Any (Reads counts atoms values) clause }
{}
