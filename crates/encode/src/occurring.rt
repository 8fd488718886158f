//! One occurrence of an action: it begins, it needs its literals and comparisons, and it changes the symbolic state. Begin with
//! `occur`.
ghost use Rattle.std.specs.Prelude.{◌≡◌, ◌<◌, true, length};
ghost use Rattle.std.specs.List.{All};
ghost use Rattle.task_core.specs.Step.{is_rollable};
ghost use Rattle.encode_rows.specs.Symbols.{HasState, MakesRows};
ghost use Rattle.encode_rows.specs.Lasting.{IsReplaced};
ghost use Rattle.encode.specs.inside.Occurring.{IsSized, rolled_rows, needed_rows, ChangesValues, TakesEffect, Continues, HasOccurrence, HasNext, Occurs, KeepsCounts};

use encode_rows::{
    Symbols, Truth, ask_all, begin, change_all, compare_all, compare_all_last, opposite, renew,
    set_all,
};
use formula::Formula;
use lin::LinFail;
use std::alloc::Global;
use task_core::{GAction, rollable};

// The comparisons at the last repetition, where the action is rollable and its count is c.
fn compare_rolled(
    alloc: Global,
    formula: &mut Formula,
    symbols: &Symbols,
    front: Truth,
    a: &GAction,
    c: u64,
) -> Result<(), LinFail>
    requires state { HasState formula.old symbols.now front }
    requires sized { IsSized (length symbols.now.truths) (length symbols.now.values) a.now }
    requires replaced { All (IsReplaced symbols.now) a.now.cmps }
    requires known { is_rollable a.now ≡ true → c < length formula.old.counts }
    ensures { MakesRows formula.old symbols.now front (rolled_rows c a.now) formula.new result }
{
    if rollable(a) {
        let incs = a.incs.as_slice();
        let cmps = a.cmps.as_slice();
        compare_all_last(alloc, formula, symbols, front, incs, c, cmps)
    } else {
        Ok(())
    }
}

// What the action needs, behind a literal that says that it doesn't happen.
fn need_all(
    alloc: Global,
    formula: &mut Formula,
    symbols: &Symbols,
    front: Truth,
    a: &GAction,
    c: u64,
) -> Result<(), LinFail>
    requires state { HasState formula.old symbols.now front }
    requires sized { IsSized (length symbols.now.truths) (length symbols.now.values) a.now }
    requires known { is_rollable a.now ≡ true → c < length formula.old.counts }
    ensures { MakesRows formula.old symbols.now front (needed_rows c a.now) formula.new result }
{
    let lits = a.lits.as_slice();
    ask_all(alloc, formula, symbols, front, lits)?;
    let cmps = a.cmps.as_slice();
    compare_all(alloc, formula, symbols, front, cmps)?;
    compare_rolled(alloc, formula, symbols, front, a, c)
}

// The values of functions.
fn change_values(
    alloc: Global,
    formula: &mut Formula,
    symbols: &mut Symbols,
    on: Truth,
    a: &GAction,
    c: u64,
) -> Result<(), LinFail>
    requires state { HasState formula.old symbols.old on }
    requires sized { IsSized (length symbols.old.truths) (length symbols.old.values) a.now }
    ensures makes { ChangesValues a.now c formula.old symbols.old on formula.new symbols.new result }
    ensures truths { symbols.new.truths ≡ symbols.old.truths }
    ensures values { length symbols.new.values ≡ length symbols.old.values }
{
    let w = formula.vars();
    let sets = a.sets.as_slice();
    set_all(alloc, formula, symbols, on, sets)?;
    let _vars = formula.vars();
    renew(alloc, &mut symbols.values, c, w, a)
}

// The truths of atoms, and then the values of functions.
fn take_effect(
    alloc: Global,
    formula: &mut Formula,
    symbols: &mut Symbols,
    on: Truth,
    a: &GAction,
    c: u64,
) -> Result<(), LinFail>
    requires state { HasOccurrence formula.old symbols.old on }
    requires sized { IsSized (length symbols.old.truths) (length symbols.old.values) a.now }
    ensures makes { TakesEffect a.now c formula.old symbols.old on formula.new symbols.new result }
    ensures kept { KeepsCounts symbols.old symbols.new }
{
    change_all(alloc, formula, &mut symbols.truths, on, a)?;
    change_values(alloc, formula, symbols, on, a, c)
}

// All behind the beginning.
fn go_on(
    alloc: Global,
    formula: &mut Formula,
    symbols: &mut Symbols,
    on: Truth,
    a: &GAction,
    c: u64,
) -> Result<(), LinFail>
    requires state { HasOccurrence formula.old symbols.old on }
    requires sized { IsSized (length symbols.old.truths) (length symbols.old.values) a.now }
    requires known { is_rollable a.now ≡ true → c < length formula.old.counts }
    ensures makes { Continues a.now c formula.old symbols.old on formula.new symbols.new result }
    ensures kept { KeepsCounts symbols.old symbols.new }
{
    need_all(alloc, formula, symbols, opposite(on), a, c)?;
    take_effect(alloc, formula, symbols, on, a, c)
}

/// The rows of the next occurrence, and the symbolic state behind it.
pub(crate) fn occur(
    alloc: Global,
    formula: &mut Formula,
    symbols: &mut Symbols,
    a: &GAction,
) -> Result<(), LinFail>
    requires next { HasNext formula.old symbols.old }
    requires sized { IsSized (length symbols.old.truths) (length symbols.old.values) a.now }
    ensures makes { Occurs a.now formula.old symbols.old formula.new symbols.new result }
    ensures kept { KeepsCounts symbols.old symbols.new }
{
    let c = formula.vars();
    let on = begin(alloc, formula, a)?;
    go_on(alloc, formula, symbols, on, a, c)
}
