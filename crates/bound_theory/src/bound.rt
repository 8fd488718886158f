//! Atoms that are bounds of counts.
ghost use Rattle.std.specs.Prelude.{◌≡◌, ◌<◌, length, true, IfSome};
ghost use Rattle.rational.specs.Fraction.{◌≤ℚ◌};
ghost use Rattle.lin.specs.Linear.{AreBelow};
ghost use Rattle.formula.specs.Atoms.{is_one_count};
ghost use Rattle.bound_theory.specs.Bounds.{IsBound};

use formula::{Formula, Lit};
use frac128::Frac;
use lin::Lin;
use std::cmp::Ordering;

/// `var <= most` of a count.
#[derive(Clone, Copy)]
pub(crate) struct Bound {
    pub var: u64,
    pub most: Frac,
}

/// Whether a left side is one count.
pub(crate) fn is_one_count(formula: &Formula, lin: &Lin) -> bool
    requires { AreBelow (length formula.now.counts) lin.now.terms }
    ensures { result ≡ is_one_count formula.now.counts lin.now.terms }
{
    lin.terms() == 1 && formula.is_count(lin.term(0).0)
}

/// The bound that a literal's atom is, if it is one.
pub(crate) fn bound_of(formula: &Formula, lit: Lit) -> Option<Bound>
    ensures { IfSome result (IsBound formula.now.counts formula.now.atoms lit.boolean) }
{
    if lit.boolean >= formula.booleans() {
        return None;
    }
    let atom = formula.atom(lit.boolean)?;
    if !is_one_count(formula, &atom.lin) {
        return None;
    }
    Some(Bound {
        var: atom.lin.term(0).0,
        most: atom.bound,
    })
}

pub(crate) fn is_at_most(x: &Frac, y: &Frac) -> bool
    ensures { result ≡ true → x.now ≤ℚ y.now }
{
    match x.cmp(y) {
        Ordering::Less => true,
        Ordering::Equal => true,
        Ordering::Greater => false,
    }
}
