//! The truth of an atom that an occurrence adds or deletes. Begin with `change`.
ghost use Rattle.std.specs.Prelude.{true, false};
ghost use Rattle.encode_rows.specs.Changing.{Names, HasRows, PutsRows, HasChange, Chooses, Changes};

use crate::clause::Truth;
use crate::row::{opposite, put_row};
use formula::{Formula, Lit};
use lin::LinFail;
use std::alloc::Global;

// A new truth variable.
pub fn name(formula: &mut Formula) -> Result<u64, LinFail>
    ensures { Names formula.old formula.new result }
{
    let boolean = formula.add_truth()?;
    Ok(boolean)
}

fn put_rows(
    alloc: Global,
    formula: &mut Formula,
    first: &[Truth],
    second: &[Truth],
    third: &[Truth],
) -> Result<(), LinFail>
    requires { HasRows formula.old first.now second.now third.now }
    ensures { PutsRows formula.old first.now second.now third.now formula.new result }
{
    put_row(alloc, formula, first)?;
    put_row(alloc, formula, second)?;
    put_row(alloc, formula, third)
}

// A truth variable for an atom that is added: true where the occurrence happens or the atom is true.
fn choose_added(alloc: Global, formula: &mut Formula, on: Truth, t: Truth) -> Result<Truth, LinFail>
    requires { HasChange formula.old on t }
    ensures { Chooses true formula.old on t formula.new result }
{
    let boolean = name(formula)?;
    let b = Truth::Of(Lit { boolean, pos: true });
    put_rows(
        alloc,
        formula,
        &[opposite(b), on, t],
        &[b, opposite(on)],
        &[b, opposite(t)],
    )?;
    Ok(b)
}

// A truth variable for an atom that is deleted: true where the occurrence doesn't happen and the atom is true.
fn choose_deleted(
    alloc: Global,
    formula: &mut Formula,
    on: Truth,
    t: Truth,
) -> Result<Truth, LinFail>
    requires { HasChange formula.old on t }
    ensures { Chooses false formula.old on t formula.new result }
{
    let boolean = name(formula)?;
    let b = Truth::Of(Lit { boolean, pos: true });
    put_rows(
        alloc,
        formula,
        &[opposite(b), opposite(on)],
        &[opposite(b), t],
        &[b, on, opposite(t)],
    )?;
    Ok(b)
}

// The truth of an added atom.
fn add(alloc: Global, formula: &mut Formula, on: Truth, t: Truth) -> Result<Truth, LinFail>
    requires { HasChange formula.old on t }
    ensures { Changes true formula.old on t formula.new result }
{
    match t {
        Truth::Yes => Ok(Truth::Yes),
        Truth::No => Ok(on),
        Truth::Of(_) => choose_added(alloc, formula, on, t),
    }
}

// The truth of a deleted atom.
fn delete(alloc: Global, formula: &mut Formula, on: Truth, t: Truth) -> Result<Truth, LinFail>
    requires { HasChange formula.old on t }
    ensures { Changes false formula.old on t formula.new result }
{
    match t {
        Truth::Yes => Ok(opposite(on)),
        Truth::No => Ok(Truth::No),
        Truth::Of(_) => choose_deleted(alloc, formula, on, t),
    }
}

/// The truth behind the occurrence, with the rows of its truth variable, if it needs one.
pub fn change(
    alloc: Global,
    formula: &mut Formula,
    on: Truth,
    t: Truth,
    is_added: bool,
) -> Result<Truth, LinFail>
    requires { HasChange formula.old on t }
    ensures { Changes is_added formula.old on t formula.new result }
{
    if is_added {
        add(alloc, formula, on, t)
    } else {
        delete(alloc, formula, on, t)
    }
}
