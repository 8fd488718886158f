//! A linear expression: terms in rising variable, none with the coefficient 0, and a constant. Begin with `Lin`.
ghost use Rattle.std.specs.List.{list_all};
ghost use Rattle.std.specs.Prelude.{◌≡◌, ◌↔◌, IsTrue, nat_lt, ◌<◌, length, IfOk, slice_get, Some};
ghost use Rattle.lin.specs.Normal.{IsNormal};
ghost use Rattle.lin.specs.Linear.{AreBelow, fixed, var};

use frac128::Frac;
use sqlite_items::Items;
use std::alloc::{AllocError, Global};
use std::marker::Model;

/// Terms, each a variable and its coefficient, and a constant. Contracts see a `Linear` of unlimited fractions.
#[derive(Debug, Drop)]
pub struct Lin {
    terms: Items<(u64, Frac)>,
    constant: Frac,
    alloc: Global,
    ghost normal: { IsNormal terms },
}

impl Model for Lin {
    ghost use Rattle.lin.specs.Linear.{Linear};
    ghost use Rattle.lin.specs.Code.{linear_code};

    ghost Value = { Linear };

    ghost coded = { linear_code };

    ghost view = { λ l. record { terms = l.terms; constant = l.constant; normal = l.normal } };
}

/// The expression with these parts.
pub(crate) fn made(alloc: Global, terms: Items<(u64, Frac)>, constant: Frac) -> Lin
    requires { IsNormal terms }
    ensures terms { result.terms ≡ terms }
    ensures constant { result.constant ≡ constant }
{
    Lin {
        terms,
        constant,
        alloc,
    }
}

impl Lin {
    /// The constant, without a variable.
    pub fn fixed(alloc: Global, c: Frac) -> Lin
        ensures { result ≡ fixed c }
    {
        made(alloc, Items::new(alloc), c)
    }

    /// The variable, once.
    pub fn var(alloc: Global, v: u64) -> Result<Lin, AllocError>
        ensures { IfOk result (λ l. l ≡ var v) }
    {
        let mut terms = Items::new(alloc);
        terms.push((v, Frac::ratio(1, 1)))?;
        Ok(made(alloc, terms, Frac::ratio(0, 1)))
    }

    /// How many terms it has.
    pub fn terms(&self) -> usize
        ensures { result ≡ length self.now.terms }
    {
        self.terms.len()
    }

    /// The term at a place: its variable and its coefficient.
    pub fn term(&self, i: usize) -> (u64, Frac)
        requires { i < length self.now.terms }
        ensures { slice_get self.now.terms i ≡ Some result }
    {
        self.terms.as_slice()[i]
    }

    /// The constant.
    pub fn constant(&self) -> Frac
        ensures { result ≡ self.now.constant }
    {
        self.constant
    }

    /// Whether each of its variables is below `vars`.
    pub fn is_below(&self, vars: u64) -> bool
        ensures { IsTrue result ↔ AreBelow vars self.now.terms }
    {
        are_below(self.all_terms(), vars)
    }

    /// An equal expression of its own.
    pub fn try_clone(&self) -> Result<Lin, AllocError>
        ensures { IfOk result (λ l. l ≡ self.now) }
    {
        let terms = Items::from_slice(self.alloc(), self.all_terms())?;
        Ok(made(self.alloc(), terms, self.constant()))
    }

    pub(crate) fn all_terms(&self) -> &[(u64, Frac)]
        ensures value { result.now ≡ self.now.terms }
        ensures normal { IsNormal result.now }
    {
        self.terms.as_slice()
    }

    pub(crate) fn alloc(&self) -> Global {
        self.alloc
    }
}

fn are_below(terms: &[(u64, Frac)], vars: u64) -> bool
    ensures { result ≡ list_all (λ t. nat_lt t.0 vars) terms.now }
{
    for term in terms {
        if term.0 >= vars {
            return false;
        }
    }
    true
}
