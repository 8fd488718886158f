//! Which asserted literals exclude each other. Begin with `first_clash`.
ghost use Rattle.std.specs.Prelude.{◌≡◌, ◌≢◌, ◌<◌, ◌⊎◌, ℕ, Some, true, IfOk, IfSome, length};
ghost use Rattle.std.specs.List.{All, Contains};
ghost use Rattle.formula.specs.Contents.{is_clause};
ghost use Rattle.theory_law.specs.Seen.{IsAsserted};
ghost use Rattle.bound_theory.specs.Bounds.{Exclude, ExcludesSome, IsPair};

use crate::bound::{bound_of, is_at_most};
use formula::{Clause, Formula, Lit};
use frac128::Frac;
use sqlite_items::Items;
use std::alloc::{AllocError, Global};
use theory_law::Coefs;

/// Whether one literal is an upper bound, and another a lower bound of the same count above it.
fn exclude(formula: &Formula, upper: Lit, lower: Lit) -> bool
    ensures { result ≡ true → Exclude formula.now.counts formula.now.atoms upper lower }
{
    if !upper.pos || lower.pos || upper.boolean == lower.boolean {
        return false;
    }
    let Some(above) = bound_of(formula, upper) else {
        return false;
    };
    let Some(below) = bound_of(formula, lower) else {
        return false;
    };
    above.var == below.var && is_at_most(&above.most, &below.most)
}

/// The first asserted lower bound that this literal excludes.
fn lower_bound(formula: &Formula, upper: Lit, events: &[Option<Lit>]) -> Option<Lit>
    ensures { IfSome result (λ l. IsAsserted events.now l × Exclude formula.now.counts formula.now.atoms upper l) }
{
    for event in events {
        if let Some(lower) = event {
            if exclude(formula, upper, *lower) {
                return Some(*lower);
            }
        }
    }
    None
}

/// An upper and a lower bound that are asserted and exclude each other.
#[derive(Clone, Copy)]
pub(crate) struct Excluded {
    pub upper: Lit,
    pub lower: Lit,
}

/// The first two asserted literals that exclude each other.
pub(crate) fn first_clash(formula: &Formula, events: &[Option<Lit>]) -> Option<Excluded>
    ensures { IfSome result (ExcludesSome formula.now.counts formula.now.atoms events.now) }
{
    for event in events {
        if let Some(upper) = event {
            if let Some(lower) = lower_bound(formula, *upper, events) {
                return Some(Excluded {
                    upper: *upper,
                    lower,
                });
            }
        }
    }
    None
}

/// The clause of two literals, in rising order.
pub(crate) fn pair(alloc: Global, a: Lit, b: Lit) -> Result<Clause, AllocError>
    requires { a.boolean ≢ b.boolean }
    ensures { IfOk result (IsPair a b) }
{
    let mut lits = Vec::new(alloc);
    if a.boolean < b.boolean {
        lits.push(a)?;
        lits.push(b)?;
    } else {
        lits.push(b)?;
        lits.push(a)?;
    }
    Ok(Clause::new(lits))
}

/// Two bounds that exclude each other add up with the coefficients 1 and 1.
pub(crate) fn ones(alloc: Global) -> Result<Coefs, AllocError> {
    let one = Frac::ratio(1, 1);
    let mut list = Items::new(alloc);
    list.push(one)?;
    list.push(one)?;
    Ok(Coefs { list })
}
