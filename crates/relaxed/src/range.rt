//! The range of a linear expression over a box of intervals. Begin with `range_end`: the constant and, in rising function
//! number, each coefficient times the end that makes it least, or greatest.
ghost use Rattle.std.specs.Prelude.{◌≡◌, is_some, true};
ghost use Rattle.rational.specs.Fraction.{◌+ℚ◌, ◌*ℚ◌};
ghost use Rattle.relaxed.specs.Range.{is_positive, end_for, picks};
ghost use Rattle.relaxed.specs.Layers.{box, interval_or_all};
ghost use Rattle.relaxed.specs.inside.Kept.{layer_of};
ghost use Rattle.relaxed.specs.inside.Ranging.{product_operations, Answers, AnswersRange};

use crate::interval::{End, Interval};
use crate::table::{Table, interval_in};
use frac128::{Frac, Wide};
use lin::Lin;

/// Which end of a range.
#[derive(Clone, Copy, PartialEq, Eq, Debug)]
pub enum Side {
    Least,
    Greatest,
}

pub(crate) fn is_positive(c: &Frac) -> bool
    ensures { result ≡ is_positive c.now }
{
    c.num() > 0
}

/// The end of the interval that makes the coefficient times it least, or greatest.
fn end_for(side: Side, c: &Frac, i: &Interval) -> End
    ensures { result ≡ end_for side c.now i.now }
{
    match side {
        Side::Least => { if is_positive(c) { i.low } else { i.high } }
        Side::Greatest => { if is_positive(c) { i.high } else { i.low } }
    }
}

fn interval_or_all(interval: Option<Interval>) -> Interval
    ensures { result ≡ interval_or_all interval }
{
    match interval {
        Some(interval) => interval,
        None => Interval {
            low: End::Infinite,
            high: End::Infinite,
        },
    }
}

/// The end for a term.
fn end_of_term(side: Side, table: &Table, variable: u64, c: &Frac) -> End
    ensures { result ≡ end_for side c.now (box (layer_of table.now) variable) }
{
    let interval = interval_in(table.intervals.as_slice(), variable);
    end_for(side, c, &interval_or_all(interval))
}

/// Whether each term has a finite end.
fn is_bounded(side: Side, table: &Table, l: &Lin) -> bool
    ensures { result ≡ is_some (picks side (box (layer_of table.now)) l.now.terms) }
{
    for i in 0..l.terms() {
        let (variable, c) = l.term(i);
        match end_of_term(side, table, variable, &c) {
            End::At(_) => {}
            End::Infinite => return false,
        }
    }
    true
}

/// The sum so far and one product more.
fn plus_product(sum: &Frac, c: &Frac, e: &Frac) -> Result<Frac, Wide>
    ensures { Answers (product_operations sum.now c.now e.now) (sum.now +ℚ c.now *ℚ e.now) result }
{
    let product = c.mul(e)?;
    sum.add(&product)
}

/// The constant, and then each coefficient times its end.
fn sum_of_ends(side: Side, table: &Table, l: &Lin) -> Result<End, Wide>
    requires { is_some (picks side (box (layer_of table.now)) l.now.terms) ≡ true }
    ensures { AnswersRange side (layer_of table.now) l.now result }
{
    let mut sum = l.constant();
    for i in 0..l.terms() {
        let (variable, c) = l.term(i);
        match end_of_term(side, table, variable, &c) {
            End::At(e) => sum = plus_product(&sum, &c, &e)?,
            End::Infinite => return Ok(End::Infinite),
        }
    }
    Ok(End::At(sum))
}

/// The least or the greatest value of the expression, or the first operation that passes. With an infinite term the range
/// is infinite, and has no operation.
pub(crate) fn range_end(side: Side, table: &Table, l: &Lin) -> Result<End, Wide>
    ensures { AnswersRange side (layer_of table.now) l.now result }
{
    if is_bounded(side, table, l) {
        sum_of_ends(side, table, l)
    } else {
        Ok(End::Infinite)
    }
}
