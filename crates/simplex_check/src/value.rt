//! The value of a basic variable: the sum of its cells times the values of the non-basic ones. It is computed once, and then
//! known until it can't be moved. Begin with `value`.
ghost use Rattle.std.specs.Prelude.{◌≡◌, ◌<◌, IsTrue, length};
ghost use Rattle.tableau.specs.Table.{width, cell, is_basic};
ghost use Rattle.simplex_law.specs.Config.{pair_at};
ghost use Rattle.simplex_check.specs.Value.{ProductAnswers, PairAnswers};
ghost use Rattle.simplex_check.specs.Known.{IsKnown};
ghost use Rattle.simplex_check.specs.inside.Moving.{ValueAnswers};

use crate::number::{add, is_zero, mul, zero};
use frac128::{Frac, Wide};
use simplex_law::Pair;
use tableau::Tableau;

// The sum with one more product, which isn't made where the cell is 0.
fn add_cell(sum: &Frac, c: &Frac, x: &Frac) -> Result<Frac, Wide>
    ensures { ProductAnswers sum.now c.now x.now result }
{
    if is_zero(c) {
        return Ok(*sum);
    }
    add(sum, &mul(c, x)?)
}

// The value of the row of r.
fn row_pair(t: &Tableau, place: &[Pair], r: u64) -> Result<Pair, Wide>
    requires row { r < width t.now }
    requires basic { IsTrue (is_basic t.now r) }
    requires placed { length place.now ≡ width t.now }
    ensures { PairAnswers t.now (pair_at place.now) r result }
{
    let mut main = zero();
    let mut small = zero();
    for j in 0..t.width() {
        let c = t.cell(r, j);
        let x = place[j as usize];
        main = add_cell(&main, &c, &x.main)?;
        small = add_cell(&small, &c, &x.small)?;
    }
    Ok(Pair { main, small })
}

/// The value of a basic variable, which is known afterwards.
pub(crate) fn value(
    t: &Tableau,
    place: &[Pair],
    known: &mut [Option<Pair>],
    r: u64,
) -> Result<Pair, Wide>
    requires row { r < width t.now }
    requires basic { IsTrue (is_basic t.now r) }
    requires placed { length place.now ≡ width t.now }
    requires many { length known.old ≡ width t.now }
    requires known { IsKnown t.now (pair_at place.now) known.old }
    ensures known { IsKnown t.now (pair_at place.now) known.new }
    ensures answers { ValueAnswers t.now (pair_at place.now) r result }
{
    let kept = known[r as usize];
    if let Some(x) = kept {
        return Ok(x);
    }
    let Pair { main, small } = row_pair(t, place, r)?;
    known[r as usize] = Some(Pair { main, small });
    Ok(Pair { main, small })
}
