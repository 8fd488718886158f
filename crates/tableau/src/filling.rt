//! The rows after a pivot, written into the room beside those before it. Begin with `fill`.
ghost use Rattle.std.specs.Prelude.{◌≡◌, ◌≢◌, ◌<◌, ◌⊎◌, ℕ, Vec, length, map, slice_index_or};
ghost use Rattle.std.specs.Global.{Global};
ghost use Rattle.frac128.specs.declared.fraction.Frac.{Frac};
ghost use Rattle.tableau.specs.Table.{at, cells_of};
ghost use Rattle.tableau.specs.inside.Rows.{RowAnswers, RowsAnswer};

use crate::number::is_zero;
use crate::row::replace;
use frac128::{Frac, Wide};

// The row of i after the pivot, where it isn't that of r. A row that is empty stays so.
fn fill_row(
    row: &[Frac],
    solved: &[Frac],
    i: usize,
    r: usize,
    e: usize,
    into: &mut [Frac],
) -> Result<(), Wide>
    requires entering { e < length solved.now }
    requires as_long { (length row.now ≡ length solved.now) ⊎ (length row.now ≡ 0) }
    requires into_as_long { length into.old ≡ length row.now }
    ensures { RowAnswers (at row.now) (at solved.now) (length solved.now) r e i (at into.new) result }
{
    if i == r {
        return Ok(());
    }
    if row.is_empty() {
        return Ok(());
    }
    if is_zero(&row[e]) {
        into.copy_from_slice(row);
        return Ok(());
    }
    replace(row, solved, e, into)
}

/// The rows after the pivot, but for those of r and e.
pub(crate) fn fill(
    rows: &[Vec<Frac>],
    solved: &[Frac],
    r: usize,
    e: usize,
    into: &mut [Vec<Frac>],
) -> Result<(), Wide>
    requires entering { e < length solved.now }
    requires many { length rows.now ≡ length solved.now }
    requires as_long { (i : ℕ) (d : Vec Frac Global) → i < length rows.now → (length (slice_index_or rows.now i d).items ≡ length solved.now) ⊎ (length (slice_index_or rows.now i d).items ≡ 0) }
    requires into_many { length into.old ≡ length rows.now }
    requires into_as_long { (i : ℕ) (d : Vec Frac Global) → i < length rows.now → length (slice_index_or into.old i d).items ≡ length (slice_index_or rows.now i d).items }
    ensures many { length into.new ≡ length rows.now }
    ensures as_long { (i : ℕ) (d : Vec Frac Global) → i < length rows.now → length (slice_index_or into.new i d).items ≡ length (slice_index_or rows.now i d).items }
    ensures answers { RowsAnswer (cells_of (map (λ v. v.items) rows.now)) (at solved.now) (length rows.now) r e (cells_of (map (λ v. v.items) into.new)) result }
{
    for i in 0..rows.len() {
        fill_row(&rows[i], solved, i, r, e, into[i].as_mut_slice())?;
    }
    Ok(())
}
