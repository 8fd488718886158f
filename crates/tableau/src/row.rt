//! The two steps of a pivot on one row: `solve` solves a row for another variable, `replace` puts the solved row into
//! another row. Nothing is computed on a cell that is 0.
ghost use Rattle.std.specs.Prelude.{◌≡◌, ◌≢◌, ◌<◌, pos, length};
ghost use Rattle.rational.specs.Fraction.{whole};
ghost use Rattle.tableau.specs.Table.{at};
ghost use Rattle.tableau.specs.inside.Rows.{ShareAnswers, SolveAnswers, CellAnswers, ReplaceAnswers};

use crate::number::{add, div, is_zero, mul, one, zero};
use frac128::{Frac, Wide};

// The cell of j in the row of r solved for e.
fn solved_cell(row: &[Frac], r: usize, e: usize, j: usize) -> Result<Frac, Wide>
    requires entering { e < length row.now }
    requires among { j < length row.now }
    requires pivot { at row.now e ≢ whole (pos 0) }
    ensures { ShareAnswers (at row.now) r e j result }
{
    if j == e {
        return Ok(zero());
    }
    if j == r {
        return div(&one(), &row[e]);
    }
    if is_zero(&row[j]) {
        return Ok(zero());
    }
    Ok(div(&row[j], &row[e])?.neg())
}

/// The row of r solved for e.
pub(crate) fn solve(row: &[Frac], r: usize, e: usize, into: &mut [Frac]) -> Result<(), Wide>
    requires entering { e < length row.now }
    requires pivot { at row.now e ≢ whole (pos 0) }
    requires as_long { length into.old ≡ length row.now }
    ensures { SolveAnswers (at row.now) (length row.now) r e (at into.new) result }
{
    for j in 0..row.len() {
        into[j] = solved_cell(row, r, e, j)?;
    }
    Ok(())
}

// The cell of j after the solved row was put in for e.
fn replaced_cell(row: &[Frac], solved: &[Frac], e: usize, j: usize) -> Result<Frac, Wide>
    requires entering { e < length row.now }
    requires among { j < length row.now }
    requires as_long { length solved.now ≡ length row.now }
    ensures { CellAnswers (at row.now) (at solved.now) e j result }
{
    if j == e {
        return Ok(zero());
    }
    if is_zero(&solved[j]) {
        return Ok(row[j]);
    }
    add(&row[j], &mul(&row[e], &solved[j])?)
}

/// Another row with the solved one put in for e.
pub(crate) fn replace(
    row: &[Frac],
    solved: &[Frac],
    e: usize,
    into: &mut [Frac],
) -> Result<(), Wide>
    requires entering { e < length row.now }
    requires as_long { length solved.now ≡ length row.now }
    requires into_as_long { length into.old ≡ length row.now }
    ensures { ReplaceAnswers (at row.now) (at solved.now) (length row.now) e (at into.new) result }
{
    for j in 0..row.len() {
        into[j] = replaced_cell(row, solved, e, j)?;
    }
    Ok(())
}
