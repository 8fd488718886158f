//! How known values move with a pivot: each by its cell of the variable that leaves, times the way of that variable to its
//! bound. Where an operation passes, the value is known no more; that is no refusal. Begin with `move_values`.
ghost use Rattle.std.specs.Prelude.{◌≡◌, ◌<◌, IsTrue, IfSome, length};
ghost use Rattle.rational.specs.Fraction.{◌+ℚ◌, ◌*ℚ◌};
ghost use Rattle.tableau.specs.Table.{width, cell, is_basic};
ghost use Rattle.simplex_law.specs.Pairs.{plus_multiple, minus};
ghost use Rattle.simplex_law.specs.declared.pair.Pair.{Pair};
ghost use Rattle.simplex_check.specs.Known.{Says};
ghost use Rattle.simplex_check.specs.inside.Moving.{Moves, MovesAt};

use crate::number::is_zero;
use frac128::Frac;
use simplex_law::Pair;
use tableau::Tableau;

fn plus_product(a: &Frac, c: &Frac, b: &Frac) -> Option<Frac>
    ensures { IfSome result (λ y. y ≡ a.now +ℚ c.now *ℚ b.now) }
{
    let product = c.mul(b).ok()?;
    a.add(&product).ok()
}

fn moved(x: &Pair, c: &Frac, way: &Pair) -> Option<Pair>
    ensures { IfSome result (λ y. y ≡ plus_multiple x.now c.now way.now) }
{
    let main = plus_product(&x.main, c, &way.main)?;
    let small = plus_product(&x.small, c, &way.small)?;
    Some(Pair { main, small })
}

// A value that is known, with a multiple of the way.
fn moved_value(x: &Option<Pair>, c: &Frac, way: &Option<Pair>) -> Option<Pair>
    ensures { (y d : Pair) → Says x.now y → Says way.now d → Says result (plus_multiple y c.now d) }
{
    if is_zero(c) {
        return *x;
    }
    match (x, way) {
        (Some(x), Some(way)) => moved(x, c, way),
        _ => None,
    }
}

/// How far it is from a value that is known to a bound.
pub(crate) fn way_to(bound: &Pair, x: &Option<Pair>) -> Option<Pair>
    ensures { (y : Pair) → Says x.now y → Says result (minus bound.now y) }
{
    let x = (*x)?;
    let main = bound.main.sub(&x.main).ok()?;
    let small = bound.small.sub(&x.small).ok()?;
    Some(Pair { main, small })
}

fn moved_at(t: &Tableau, i: u64, r: u64, way: &Option<Pair>, x: &Option<Pair>) -> Option<Pair>
    requires row { i < width t.now }
    requires column { r < width t.now }
    ensures { MovesAt t.now r way.now i x.now result }
{
    if !t.is_basic(i) {
        return None;
    }
    moved_value(x, &t.cell(i, r), way)
}

/// The values of basic variables, after the non-basic r went its way.
pub(crate) fn move_values(t: &Tableau, r: u64, way: &Option<Pair>, known: &mut [Option<Pair>])
    requires column { r < width t.now }
    requires many { length known.old ≡ width t.now }
    ensures { Moves t.now r way.now (width t.now) known.old known.new }
{
    for i in 0..t.width() {
        known[i as usize] = moved_at(t, i, r, way, &known[i as usize]);
    }
}
