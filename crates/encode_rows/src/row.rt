//! Rows whose literals are known. Begin with `put_row`.
ghost use Rattle.std.specs.Prelude.{◌≡◌, ◌<◌, length};
ghost use Rattle.std.specs.List.{All};
ghost use Rattle.encode_rows.specs.Standing.{opposite_truth, signed_truth};
ghost use Rattle.encode_rows.specs.Symbols.{HasRow, PutsRow, HasState, MakesRows, asked_row, asked_rows};

use crate::clause::{Truth, add_row};
use crate::symbols::Symbols;
use formula::{Formula, Lit};
use lin::LinFail;
use std::alloc::Global;

/// Adds the clause of the row, unless it is always true.
pub fn put_row(alloc: Global, formula: &mut Formula, row: &[Truth]) -> Result<(), LinFail>
    requires { HasRow formula.old row.now }
    ensures { PutsRow formula.old row.now formula.new result }
{
    add_row(alloc, formula, row)?;
    Ok(())
}

pub fn opposite(t: Truth) -> Truth
    ensures { result ≡ opposite_truth t }
{
    match t {
        Truth::Yes => Truth::No,
        Truth::No => Truth::Yes,
        Truth::Of(l) => Truth::Of(Lit {
            boolean: l.boolean,
            pos: !l.pos,
        }),
    }
}

/// The truth that is asked for of an atom.
pub fn signed(s: bool, t: Truth) -> Truth
    ensures { result ≡ signed_truth s t }
{
    if s { t } else { opposite(t) }
}

/// The row of a literal that is asked for.
fn ask(
    alloc: Global,
    formula: &mut Formula,
    symbols: &Symbols,
    front: Truth,
    literal: &(u64, bool),
) -> Result<(), LinFail>
    requires state { HasState formula.old symbols.now front }
    requires known { literal.now.0 < length symbols.now.truths }
    ensures { MakesRows formula.old symbols.now front (asked_row literal.now) formula.new result }
{
    let truth = signed(literal.1, symbols.truths.as_slice()[literal.0 as usize]);
    put_row(alloc, formula, &[front, truth])
}

/// The rows of literals that are asked for.
pub fn ask_all(
    alloc: Global,
    formula: &mut Formula,
    symbols: &Symbols,
    front: Truth,
    literals: &[(u64, bool)],
) -> Result<(), LinFail>
    requires state { HasState formula.old symbols.now front }
    requires known { All (λ l. l.0 < length symbols.now.truths) literals.now }
    ensures { MakesRows formula.old symbols.now front (asked_rows literals.now) formula.new result }
{
    for literal in literals {
        ask(alloc, formula, symbols, front, literal)?;
    }
    Ok(())
}
