//! What a literal of an atom says. Begin with `Formula::reading`; a negative literal says that the atom is false, which of a
//! count `c <= k` is `c >= k + 1`.
ghost use Rattle.std.specs.Prelude.{◌≡◌, ◌<◌, length, IfOk, IsTrue, ◌↔◌, pos, ◌+ℤ◌};
ghost use Rattle.rational.specs.Fraction.{whole, ◌+ℚ◌};
ghost use Rattle.rational.specs.Floor.{IsWhole};
ghost use Rattle.rational.specs.Farkas.{InOrder};
ghost use Rattle.frac128.specs.Bounds.{IsFrac, IsWithin};
ghost use Rattle.lin.specs.Linear.{AreBelow};
ghost use Rattle.formula.specs.Atoms.{IsAtom, is_one_count};
ghost use Rattle.formula.specs.Reading.{reading, reading_of, denied, IsOfAtom};

use crate::atom::{Atom, Constraint, Lit};
use crate::formula::Formula;
use frac128::Frac;
use lin::Lin;
use std::alloc::AllocError;
use std::cmp::Ordering;

impl Formula {
    /// The literal's atom, or what is true where that is false.
    pub fn reading(&self, l: &Lit) -> Result<Constraint, AllocError>
        requires { IsOfAtom self.now l.now }
        ensures { IfOk result (λ c. c ≡ reading_of self.now l.now) }
    {
        let Some(atom) = self.atom(l.boolean) else {
            unreachable!();
        };
        constraint(self.counts(), atom, l.pos)
    }
}

fn constraint(counts: &[bool], atom: &Atom, pos: bool) -> Result<Constraint, AllocError>
    requires { IsAtom counts.now atom.now }
    ensures { IfOk result (λ c. c ≡ reading counts.now atom.now pos) }
{
    if pos {
        return Ok(Constraint {
            lin: atom.lin.try_clone()?,
            strict: atom.strict,
            bound: atom.bound,
        });
    }
    let (strict, bound) = denied_bound(counts, atom);
    Ok(Constraint {
        lin: atom.lin.neg()?,
        strict,
        bound,
    })
}

/// How the negative of a false atom's expression is bounded: whether strictly, and by what.
pub(crate) fn denied_bound(counts: &[bool], atom: &Atom) -> (bool, Frac)
    requires { IsAtom counts.now atom.now }
    ensures strict { result.0 ≡ (denied counts.now atom.now).strict }
    ensures bound { result.1 ≡ (denied counts.now atom.now).bound }
{
    if is_one_count(counts, &atom.lin) {
        let next = successor(&atom.bound);
        (false, next.neg())
    } else {
        (!atom.strict, atom.bound.neg())
    }
}

fn is_one_count(counts: &[bool], lin: &Lin) -> bool
    requires { AreBelow (length counts.now) lin.now.terms }
    ensures { result ≡ is_one_count counts.now lin.now.terms }
{
    lin.terms() == 1 && counts[lin.term(0).0 as usize]
}

fn successor(k: &Frac) -> Frac
    requires whole { IsWhole k.now }
    requires next { IsFrac (k.now +ℚ whole (pos 1)) }
    ensures { result ≡ k.now +ℚ whole (pos 1) }
{
    Frac::ratio(plus_one(k.num()), 1)
}

fn plus_one(n: i128) -> i128
    requires { IsWithin (n +ℤ pos 1) }
    ensures value { result ≡ n +ℤ pos 1 }
    ensures within { IsWithin result }
{
    n + 1
}

/// Whether the value is at most the bound, or below it where that is strict.
pub(crate) fn is_in_order(value: &Frac, strict: bool, bound: &Frac) -> bool
    ensures { IsTrue result ↔ InOrder strict value.now bound.now }
{
    match value.cmp(bound) {
        Ordering::Less => true,
        Ordering::Equal => !strict,
        Ordering::Greater => false,
    }
}
