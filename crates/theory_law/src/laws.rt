//! A law over every theory.
ghost use Rattle.std.specs.Prelude.{◌≡◌, List, Bool, length};
ghost use Rattle.std.specs.declared.option.Option.{Option};
ghost use Rattle.std.specs.List.{Any};
ghost use Rattle.rational.specs.Fraction.{Fraction};
ghost use Rattle.formula.specs.declared.atom.Atom.{Atom};
ghost use Rattle.formula.specs.Meets.{AreWhole};
ghost use Rattle.theory_law.specs.Readings.{Reads};

use crate::theory::Theory;
use formula::Clause;

/// At every point with whole counts some literal of a shown clause has a reading that holds.
pub fn shown_means<T: Theory>(clause: &Clause, why: &T::Why)
    ensures { (counts : List Bool) (atoms : List (Option Atom)) → T.shown counts atoms clause.now why.now → (values : List Fraction) → length values ≡ length counts → AreWhole counts values → Any (Reads counts atoms values) clause.now }
{}
