//! The theory's own copy of the atoms. Begin with `copy`.
ghost use Rattle.std.specs.Prelude.{◌≡◌, ◌↔◌, [], IfOk, IsTrue, true, Ok, MatchResult, length};
ghost use Rattle.std.specs.Option.{option_copied};
ghost use Rattle.formula.specs.Contents.{IsBoolean, with_boolean};
ghost use Rattle.theory_law.specs.Seen.{IsMine, StartFails};
ghost use Rattle.bound_theory.specs.Bounds.{is_taken};
ghost use Rattle.bound_theory.specs.Copies.{Copies};

use crate::bound::is_one_count;
use formula::{Atom, Formula};
use frac128::Frac;
use sqlite_items::Items;
use std::alloc::{AllocError, Global};
use theory_law::StartFail;

/// A formula with the same variables, and nothing else.
fn variables_of(alloc: Global, formula: &Formula) -> Result<Formula, AllocError>
    ensures { IfOk result (λ f. f ≡ record { counts = formula.now.counts; atoms = []; clauses = [] }) }
{
    let mut copy = Formula::new(alloc);
    for v in 0..formula.vars() {
        copy.add_var(formula.is_count(v))?;
    }
    Ok(copy)
}

/// Adds the Boolean, unless its atom isn't a bound of a count. Whether it did.
fn add(copy: &mut Formula, atom: Option<&Atom>) -> Result<bool, AllocError>
    requires { IsBoolean copy.old.counts (option_copied atom) }
    ensures mine { IfOk result (λ b. IsTrue b ↔ IsMine is_taken copy.old.counts (option_copied atom.entry)) }
    ensures added { result ≡ Ok true → copy.new ≡ with_boolean (option_copied atom.entry) copy.old }
{
    let Some(atom) = atom else {
        copy.add_truth()?;
        return Ok(true);
    };
    if !is_one_count(copy, &atom.lin) {
        return Ok(false);
    }
    copy.add_split(atom.lin.term(0).0, atom.bound)?;
    Ok(true)
}

/// The variables and the Booleans, or the first one that isn't taken.
pub(crate) fn copy(alloc: Global, formula: &Formula) -> Result<Formula, StartFail>
    ensures { MatchResult result (Copies formula.now) (StartFails is_taken formula.now) }
{
    let mut copy = variables_of(alloc, formula)?;
    for b in 0..formula.booleans() {
        if !add(&mut copy, formula.atom(b))? {
            return Err(StartFail::NotMine(b));
        }
    }
    Ok(copy)
}

/// The point of zeros.
pub(crate) fn zeros(alloc: Global, formula: &Formula) -> Result<Items<Frac>, AllocError>
    ensures { IfOk result (λ values. length values ≡ length formula.now.counts) }
{
    let mut values = Items::new(alloc);
    for _v in 0..formula.vars() {
        values.push(Frac::ratio(0, 1))?;
    }
    Ok(values)
}
