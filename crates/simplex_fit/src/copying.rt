//! A theory's own copy of the variables and Booleans of a formula. Begin with `without_clauses`.
ghost use Rattle.std.specs.Prelude.{◌≡◌, ◌<◌, [], IfOk, OnOk, length};
ghost use Rattle.std.specs.Option.{option_copied};
ghost use Rattle.lin.specs.Linear.{AreBelow};
ghost use Rattle.formula.specs.Atoms.{is_one_count};
ghost use Rattle.formula.specs.Contents.{IsBoolean, with_boolean};

use formula::{Atom, Formula};
use lin::Lin;
use std::alloc::{AllocError, Global};

/// A formula with the same variables, and nothing else.
fn variables_of(alloc: Global, formula: &Formula) -> Result<Formula, AllocError>
    ensures { IfOk result (λ f. f ≡ record { counts = formula.now.counts; atoms = []; clauses = [] }) }
{
    let mut copy = Formula::new(alloc);
    for v in 0..formula.vars() {
        copy.add_var(formula.is_count(v))?;
    }
    Ok(copy)
}

fn is_one_count(formula: &Formula, lin: &Lin) -> bool
    requires { AreBelow (length formula.now.counts) lin.now.terms }
    ensures { result ≡ is_one_count formula.now.counts lin.now.terms }
{
    lin.terms() == 1 && formula.is_count(lin.term(0).0)
}

fn copied(a: &Atom) -> Result<Atom, AllocError>
    ensures { IfOk result (λ b. b ≡ a.now) }
{
    Ok(Atom {
        lin: a.lin.try_clone()?,
        strict: a.strict,
        bound: a.bound,
    })
}

// One more Boolean. A formula has an atom twice only where it bounds one count, since only splits are added twice; for another
// atom that is there this gives up, as without memory.
fn add_boolean(copy: &mut Formula, atom: Option<&Atom>) -> Result<(), AllocError>
    requires { IsBoolean copy.old.counts (option_copied atom) }
    ensures { OnOk result (copy.new ≡ with_boolean (option_copied atom.entry) copy.old) }
{
    let Some(atom) = atom else {
        copy.add_truth()?;
        return Ok(());
    };
    if is_one_count(copy, &atom.lin) {
        copy.add_split(atom.lin.term(0).0, atom.bound)?;
        return Ok(());
    }
    let before = copy.booleans();
    copy.add_atom(copied(atom)?)?;
    if copy.booleans() == before {
        return Err(AllocError);
    }
    Ok(())
}

/// The variables and Booleans of a formula, and no clause.
pub fn without_clauses(alloc: Global, formula: &Formula) -> Result<Formula, AllocError>
    ensures { IfOk result (λ f. f ≡ record { counts = formula.now.counts; atoms = formula.now.atoms; clauses = [] }) }
{
    let mut copy = variables_of(alloc, formula)?;
    for b in 0..formula.booleans() {
        add_boolean(&mut copy, formula.atom(b))?;
    }
    Ok(copy)
}

fn copied_where(atom: Option<&Atom>) -> Result<Option<Atom>, AllocError>
    ensures { IfOk result (λ a. a ≡ option_copied atom.entry) }
{
    match atom {
        None => Ok(None),
        Some(a) => Ok(Some(copied(a)?)),
    }
}

/// The atom of each Boolean.
pub(crate) fn atoms_of(alloc: Global, formula: &Formula) -> Result<Vec<Option<Atom>>, AllocError>
    ensures { IfOk result (λ v. v.items ≡ formula.now.atoms) }
{
    let mut atoms = Vec::new(alloc);
    for b in 0..formula.booleans() {
        atoms.push(copied_where(formula.atom(b))?)?;
    }
    Ok(atoms)
}
