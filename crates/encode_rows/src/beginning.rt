//! An occurrence begins: whether it happens is told by its count, or by a truth variable where its action has no increments.
//! Begin with `begin`.
ghost use Rattle.std.specs.Prelude.{◌<◌, length, pos, negsuc, true};
ghost use Rattle.rational.specs.Fraction.{whole};
ghost use Rattle.frac128.specs.Operations.{Fits};
ghost use Rattle.frac128.specs.declared.operations.Op.TheVariants as op;
ghost use Rattle.lin.specs.Linear.{AreBelow};
ghost use Rattle.encode_rows.specs.Beginning.{IsStanding, AddsNumber, MakesSum, Bounds, MakesItems, bound_row, least_row, most_rows, Happens, BeginsCounted, BeginsNamed, Begins};

use crate::change::name;
use crate::clause::Truth;
use crate::literal::literal_of;
use crate::row::{opposite, put_row, signed};
use formula::{Formula, Lit};
use frac128::Frac;
use lin::{Lin, LinFail};
use std::alloc::Global;
use task_core::{GAction, rollable};

/// A new numeric variable.
pub fn add_number(formula: &mut Formula, count: bool) -> Result<u64, LinFail>
    ensures { AddsNumber count formula.old formula.new result }
{
    let number = formula.add_var(count)?;
    Ok(number)
}

// `c + k`
fn plus(alloc: Global, c: u64, k: Frac) -> Result<Lin, LinFail>
    requires { Fits op.Add (whole (pos 0)) k }
    ensures { MakesSum c k result }
{
    let own = Lin::var(alloc, c)?;
    let sum = own.add(&Lin::fixed(alloc, k))?;
    Ok(sum)
}

// The row of `l <= 0`, or where `pos` is false of its negation.
fn put_bound(alloc: Global, formula: &mut Formula, l: &Lin, pos: bool) -> Result<(), LinFail>
    requires standing { IsStanding formula.old }
    requires below { AreBelow (length formula.old.counts) l.now.terms }
    ensures { Bounds formula.old pos l.now formula.new result }
{
    let literal = literal_of(alloc, formula, l, false)?;
    put_row(alloc, formula, &[signed(pos, literal)])
}

// The count isn't below 0.
fn put_least(alloc: Global, formula: &mut Formula, c: u64) -> Result<(), LinFail>
    requires standing { IsStanding formula.old }
    requires known { c < length formula.old.counts }
    ensures { MakesItems (least_row c) formula.old formula.new result }
{
    let l = plus(alloc, c, Frac::ratio(1, 1))?;
    put_bound(alloc, formula, &l, false)
}

// The count is at most 1, unless the action is rollable.
fn put_most(alloc: Global, formula: &mut Formula, c: u64, rolls: bool) -> Result<(), LinFail>
    requires standing { IsStanding formula.old }
    requires known { c < length formula.old.counts }
    ensures { MakesItems (most_rows rolls c) formula.old formula.new result }
{
    if rolls {
        Ok(())
    } else {
        put_most_one(alloc, formula, c)
    }
}

fn put_most_one(alloc: Global, formula: &mut Formula, c: u64) -> Result<(), LinFail>
    requires standing { IsStanding formula.old }
    requires known { c < length formula.old.counts }
    ensures { MakesItems (bound_row c true (whole (negsuc 0))) formula.old formula.new result }
{
    let l = plus(alloc, c, Frac::ratio(-1, 1))?;
    put_bound(alloc, formula, &l, true)
}

// The literal that the count is above 0.
fn happens(alloc: Global, formula: &mut Formula, c: u64) -> Result<Truth, LinFail>
    requires { c < length formula.old.counts }
    ensures { Happens c formula.old formula.new result }
{
    let own = Lin::var(alloc, c)?;
    let literal = literal_of(alloc, formula, &own, false)?;
    Ok(opposite(literal))
}

fn begin_counted(alloc: Global, formula: &mut Formula, rolls: bool) -> Result<Truth, LinFail>
    requires { IsStanding formula.old }
    ensures { BeginsCounted rolls formula.old formula.new result }
{
    let c = add_number(formula, true)?;
    put_least(alloc, formula, c)?;
    put_most(alloc, formula, c, rolls)?;
    happens(alloc, formula, c)
}

fn begin_named(formula: &mut Formula) -> Result<Truth, LinFail>
    ensures { BeginsNamed formula.old formula.new result }
{
    let boolean = name(formula)?;
    Ok(Truth::Of(Lit { boolean, pos: true }))
}

/// The literal that the occurrence happens, with its numeric or truth variable and the bounds of its count.
pub fn begin(alloc: Global, formula: &mut Formula, a: &GAction) -> Result<Truth, LinFail>
    requires { IsStanding formula.old }
    ensures { Begins a.now formula.old formula.new result }
{
    if a.incs.is_empty() {
        begin_named(formula)
    } else {
        begin_counted(alloc, formula, rollable(a))
    }
}
