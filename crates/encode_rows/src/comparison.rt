//! Rows of comparisons, each behind a literal that says that nothing is asked for. Begin with `compare_all`.
ghost use Rattle.std.specs.Prelude.{length};
ghost use Rattle.std.specs.List.{All};
ghost use Rattle.lin.specs.Linear.{AreBelow};
ghost use Rattle.encode_rows.specs.Symbols.{HasFront, HasState, Compares, ComparesAs, MakesRows, first_row, first_rows};

use crate::clause::Truth;
use crate::literal::literal_of;
use crate::row::put_row;
use crate::symbols::Symbols;
use formula::Formula;
use lin::{Cmp, Lin, LinFail};
use std::alloc::Global;

/// The row of `l < 0` where it is strict, and else of `l <= 0`.
pub fn compare(
    alloc: Global,
    formula: &mut Formula,
    front: Truth,
    l: &Lin,
    strict: bool,
) -> Result<(), LinFail>
    requires front { HasFront formula.old front }
    requires below { AreBelow (length formula.old.counts) l.now.terms }
    ensures { Compares formula.old front strict l.now formula.new result }
{
    let literal = literal_of(alloc, formula, l, strict)?;
    put_row(alloc, formula, &[front, literal])
}

pub fn compare_as(
    alloc: Global,
    formula: &mut Formula,
    front: Truth,
    l: &Lin,
    cmp: Cmp,
) -> Result<(), LinFail>
    requires front { HasFront formula.old front }
    requires below { AreBelow (length formula.old.counts) l.now.terms }
    ensures { ComparesAs formula.old front l.now cmp formula.new result }
{
    match cmp {
        Cmp::Le => compare(alloc, formula, front, l, false),
        Cmp::Lt => compare(alloc, formula, front, l, true),
        Cmp::Eq => compare_equal(alloc, formula, front, l),
    }
}

// The rows of `l <= 0` and of `-l <= 0`.
fn compare_equal(alloc: Global, formula: &mut Formula, front: Truth, l: &Lin) -> Result<(), LinFail>
    requires front { HasFront formula.old front }
    requires below { AreBelow (length formula.old.counts) l.now.terms }
    ensures { ComparesAs formula.old front l.now Cmp.Eq formula.new result }
{
    compare(alloc, formula, front, l, false)?;
    let negative = l.neg()?;
    compare(alloc, formula, front, &negative, false)
}

// The rows of a comparison at the first repetition.
fn compare_first(
    alloc: Global,
    formula: &mut Formula,
    symbols: &Symbols,
    front: Truth,
    comparison: &(Lin, Cmp),
) -> Result<(), LinFail>
    requires state { HasState formula.old symbols.now front }
    requires valued { AreBelow (length symbols.now.values) comparison.now.0.terms }
    ensures { MakesRows formula.old symbols.now front (first_row comparison.now) formula.new result }
{
    let l = comparison.0.subst(symbols.values.as_slice())?;
    compare_as(alloc, formula, front, &l, comparison.1)
}

/// The rows of comparisons at the first repetition.
pub fn compare_all(
    alloc: Global,
    formula: &mut Formula,
    symbols: &Symbols,
    front: Truth,
    comparisons: &[(Lin, Cmp)],
) -> Result<(), LinFail>
    requires state { HasState formula.old symbols.now front }
    requires valued { All (λ c. AreBelow (length symbols.now.values) c.0.terms) comparisons.now }
    ensures { MakesRows formula.old symbols.now front (first_rows comparisons.now) formula.new result }
{
    for comparison in comparisons {
        compare_first(alloc, formula, symbols, front, comparison)?;
    }
    Ok(())
}
