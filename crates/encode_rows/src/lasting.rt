//! Comparisons at the last repetition of a rollable action: each repetition before it has changed an expression by the same
//! amount. Begin with `compare_last`.
ghost use Rattle.std.specs.Prelude.{◌≡◌, ◌<◌, length};
ghost use Rattle.std.specs.List.{All};
ghost use Rattle.rational.specs.Fraction.{◌+ℚ◌, ◌*ℚ◌};
ghost use Rattle.rational.specs.Linear.{coefficient_of};
ghost use Rattle.lin.specs.Normal.{is_zero};
ghost use Rattle.lin.specs.Linear.{AreBelow};
ghost use Rattle.lin.specs.Operations.{AnswersInOrder, AnswersInMemory};
ghost use Rattle.task_core.specs.Growth.{change_of};
ghost use Rattle.encode_laws.specs.Operations.{change_ops, at_last, at_last_ops};
ghost use Rattle.encode_rows.specs.Symbols.{HasState, MakesRows};
ghost use Rattle.encode_rows.specs.Lasting.{amount_ops, changed_row, last_row, last_rows_at, IsReplaced};

use crate::clause::Truth;
use crate::comparison::compare_as;
use crate::symbols::Symbols;
use formula::Formula;
use frac128::{Frac, Wide};
use lin::{Cmp, Lin, LinFail};
use std::alloc::Global;

fn is_zero(x: &Frac) -> bool
    ensures { result ≡ is_zero x.now }
{
    x.num() == 0
}

// The coefficient of a variable.
fn coefficient(l: &Lin, v: u64) -> Frac
    ensures { result ≡ coefficient_of v l.now.terms }
{
    for i in 0..l.terms() {
        let term = l.term(i);
        if term.0 == v {
            return term.1;
        }
    }
    Frac::ratio(0, 1)
}

// The sum so far, and what an increment adds to an expression that reads its function with this coefficient.
fn add_amount(sum: &Frac, coefficient: &Frac, amount: &Frac) -> Result<Frac, Wide>
    ensures { AnswersInOrder (amount_ops sum.now coefficient.now amount.now) (sum.now +ℚ coefficient.now *ℚ amount.now) result }
{
    if is_zero(coefficient) {
        return Ok(*sum);
    }
    let product = coefficient.mul(amount)?;
    sum.add(&product)
}

// What one repetition adds to the value of an expression.
fn change_of(incs: &[(u64, Frac)], l: &Lin) -> Result<Frac, Wide>
    ensures { AnswersInOrder (change_ops incs.now l.now) (change_of incs.now l.now.terms) result }
{
    let mut sum = Frac::ratio(0, 1);
    for inc in incs {
        let coefficient = coefficient(l, inc.0);
        sum = add_amount(&sum, &coefficient, &inc.1)?;
    }
    Ok(sum)
}

// `l + d * c - d`
fn at_last(alloc: Global, l: &Lin, d: &Frac, c: u64) -> Result<Lin, LinFail>
    ensures { AnswersInMemory (at_last_ops d.now c l.now) (at_last d.now c l.now) result }
{
    let own = Lin::var(alloc, c)?;
    let growth = own.scale(d)?;
    let grown = l.add(&growth)?;
    let last = grown.add(&Lin::fixed(alloc, d.neg()))?;
    Ok(last)
}

// The rows of a comparison whose expression, already made, changes by `d` each time.
fn compare_changed(
    alloc: Global,
    formula: &mut Formula,
    symbols: &Symbols,
    front: Truth,
    comparison: &(Lin, Cmp),
    d: &Frac,
    c: u64,
) -> Result<(), LinFail>
    requires state { HasState formula.old symbols.now front }
    requires valued { AreBelow (length symbols.now.values) comparison.now.0.terms }
    requires replaced { IsReplaced symbols.now comparison.now }
    requires known { c < length formula.old.counts }
    ensures { MakesRows formula.old symbols.now front (changed_row d.now c comparison.now) formula.new result }
{
    let l = comparison.0.subst(symbols.values.as_slice())?;
    let last = at_last(alloc, &l, d, c)?;
    compare_as(alloc, formula, front, &last, comparison.1)
}

// The rows of a comparison at the last repetition.
fn compare_last(
    alloc: Global,
    formula: &mut Formula,
    symbols: &Symbols,
    front: Truth,
    incs: &[(u64, Frac)],
    c: u64,
    comparison: &(Lin, Cmp),
) -> Result<(), LinFail>
    requires state { HasState formula.old symbols.now front }
    requires valued { AreBelow (length symbols.now.values) comparison.now.0.terms }
    requires replaced { IsReplaced symbols.now comparison.now }
    requires known { c < length formula.old.counts }
    ensures { MakesRows formula.old symbols.now front (last_row incs.now c comparison.now) formula.new result }
{
    let d = change_of(incs, &comparison.0)?;
    if is_zero(&d) {
        return Ok(());
    }
    compare_changed(alloc, formula, symbols, front, comparison, &d, c)
}

/// The rows of comparisons at the last repetition.
pub fn compare_all_last(
    alloc: Global,
    formula: &mut Formula,
    symbols: &Symbols,
    front: Truth,
    incs: &[(u64, Frac)],
    c: u64,
    comparisons: &[(Lin, Cmp)],
) -> Result<(), LinFail>
    requires state { HasState formula.old symbols.now front }
    requires valued { All (λ k. AreBelow (length symbols.now.values) k.0.terms) comparisons.now }
    requires replaced { All (IsReplaced symbols.now) comparisons.now }
    requires known { c < length formula.old.counts }
    ensures { MakesRows formula.old symbols.now front (last_rows_at incs.now c comparisons.now) formula.new result }
{
    for comparison in comparisons {
        compare_last(alloc, formula, symbols, front, incs, c, comparison)?;
    }
    Ok(())
}
