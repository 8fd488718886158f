//! New values of functions: each has a numeric variable, tied to the expression's value where the occurrence happens, and to the
//! old value where it doesn't. Begin with `set_all`.
ghost use Rattle.std.specs.Prelude.{◌≡◌, ◌<◌, ◌+◌, suc, length, slice_index_or, IfOk, OnOk};
ghost use Rattle.std.specs.List.{All};
ghost use Rattle.lin.specs.Linear.{AreBelow, var};
ghost use Rattle.encode_rows.specs.Symbols.{HasFront, HasState, MakesRows};
ghost use Rattle.encode_rows.specs.Setting.{MakesDifference, MakesEquation, MakesEquations, set_row, set_list};

use crate::beginning::add_number;
use crate::clause::Truth;
use crate::comparison::compare;
use crate::row::opposite;
use crate::symbols::Symbols;
use formula::Formula;
use lin::{Lin, LinFail};
use std::alloc::Global;

// The row of `x - y <= 0`.
fn compare_difference(
    alloc: Global,
    formula: &mut Formula,
    front: Truth,
    x: &Lin,
    y: &Lin,
) -> Result<(), LinFail>
    requires front { HasFront formula.old front }
    requires left { AreBelow (length formula.old.counts) x.now.terms }
    requires right { AreBelow (length formula.old.counts) y.now.terms }
    ensures { MakesDifference formula.old front x.now y.now formula.new result }
{
    let negative = y.neg()?;
    let l = x.add(&negative)?;
    compare(alloc, formula, front, &l, false)
}

// The rows that say that x and y are equal.
fn equate(
    alloc: Global,
    formula: &mut Formula,
    front: Truth,
    x: &Lin,
    y: &Lin,
) -> Result<(), LinFail>
    requires front { HasFront formula.old front }
    requires left { AreBelow (length formula.old.counts) x.now.terms }
    requires right { AreBelow (length formula.old.counts) y.now.terms }
    ensures { MakesEquation formula.old front x.now y.now formula.new result }
{
    compare_difference(alloc, formula, front, x, y)?;
    compare_difference(alloc, formula, front, y, x)
}

// The variable is v where the occurrence happens, and else u.
fn tie(
    alloc: Global,
    formula: &mut Formula,
    on: Truth,
    w: u64,
    v: &Lin,
    u: &Lin,
) -> Result<(), LinFail>
    requires front { HasFront formula.old on }
    requires known { w < length formula.old.counts }
    requires left { AreBelow (length formula.old.counts) v.now.terms }
    requires right { AreBelow (length formula.old.counts) u.now.terms }
    ensures { MakesEquations formula.old on w v.now u.now formula.new result }
{
    let own = Lin::var(alloc, w)?;
    equate(alloc, formula, opposite(on), &own, v)?;
    equate(alloc, formula, on, &own, u)
}

// A function's new value.
fn set_one(
    alloc: Global,
    formula: &mut Formula,
    symbols: &Symbols,
    on: Truth,
    set: &(u64, Lin),
) -> Result<(), LinFail>
    requires state { HasState formula.old symbols.now on }
    requires within { set.now.0 < length symbols.now.values }
    requires valued { AreBelow (length symbols.now.values) set.now.1.terms }
    ensures makes { MakesRows formula.old symbols.now on (set_row (length formula.old.counts) set.now) formula.new result }
    ensures more { OnOk result (length formula.new.counts ≡ suc (length formula.old.counts)) }
{
    let w = add_number(formula, false)?;
    let v = set.1.subst(symbols.values.as_slice())?;
    tie(
        alloc,
        formula,
        on,
        w,
        &v,
        &symbols.values.as_slice()[set.0 as usize],
    )
}

/// The rows of all new values.
pub fn set_all(
    alloc: Global,
    formula: &mut Formula,
    symbols: &Symbols,
    on: Truth,
    sets: &[(u64, Lin)],
) -> Result<(), LinFail>
    requires state { HasState formula.old symbols.now on }
    requires within { All (λ s. s.0 < length symbols.now.values) sets.now }
    requires valued { All (λ s. AreBelow (length symbols.now.values) s.1.terms) sets.now }
    ensures { MakesRows formula.old symbols.now on (set_list (length formula.old.counts) sets.now) formula.new result }
{
    for set in sets {
        set_one(alloc, formula, symbols, on, set)?;
    }
    Ok(())
}
