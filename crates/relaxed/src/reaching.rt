//! The interval that a new value gives a function, with its ranges taken in the old layer.
ghost use Rattle.std.specs.Prelude.{◌≡◌, map, if◌then◌else◌};
ghost use Rattle.task_core.specs.Step.{is_empty};
ghost use Rattle.relaxed.specs.Interval.{point};
ghost use Rattle.relaxed.specs.Layers.{stretched_low, stretched_high, reached_by_range, reached_by_amount};
ghost use Rattle.relaxed.specs.Named.{set_operations};
ghost use Rattle.relaxed.specs.inside.Kept.{interval_in, layer_of};
ghost use Rattle.relaxed.specs.inside.Ranging.{Answers};
ghost use Rattle.relaxed.specs.inside.Answering.{AnswersParts};

use crate::failure::{LayerFail, RangePart, passing};
use crate::interval::{End, Interval, is_at_most, point};
use crate::range::{Side, is_positive, range_end};
use crate::table::{Table, interval_in};
use frac128::{Frac, Wide};
use lin::Lin;

/// An old lower end that the range goes below becomes infinite.
fn stretched_low(old: End, range: End) -> End
    ensures { result ≡ stretched_low old range }
{
    match old {
        End::Infinite => End::Infinite,
        End::At(e) => match range {
            End::Infinite => End::Infinite,
            End::At(r) => {
                if is_at_most(&e, &r) {
                    End::At(e)
                } else {
                    End::Infinite
                }
            }
        },
    }
}

/// An old upper end that the range exceeds becomes infinite.
fn stretched_high(old: End, range: End) -> End
    ensures { result ≡ stretched_high old range }
{
    match old {
        End::Infinite => End::Infinite,
        End::At(e) => match range {
            End::Infinite => End::Infinite,
            End::At(r) => {
                if is_at_most(&r, &e) {
                    End::At(e)
                } else {
                    End::Infinite
                }
            }
        },
    }
}

/// An amount above 0 makes the upper end infinite, one below 0 the lower end.
pub(crate) fn reached_by_amount(c: &Frac, old: Option<Interval>) -> Option<Interval>
    ensures { result ≡ reached_by_amount c.now old }
{
    match old {
        None => None,
        Some(i) => {
            if c.num() == 0 {
                None
            } else if is_positive(c) {
                Some(Interval {
                    low: i.low,
                    high: End::Infinite,
                })
            } else {
                Some(Interval {
                    low: End::Infinite,
                    high: i.high,
                })
            }
        }
    }
}

fn reached_by_value(table: &Table, f: u64, l: &Lin) -> Result<Interval, Wide>
    ensures { Answers (set_operations (layer_of table.now) f l.now) (if is_empty l.now.terms then point l.now.constant else reached_by_range (layer_of table.now) l.now (interval_in table.now.intervals f)) result }
{
    if l.terms() == 0 {
        return Ok(point(l.constant()));
    }
    match interval_in(table.intervals.as_slice(), f) {
        None => Ok(Interval {
            low: End::Infinite,
            high: End::Infinite,
        }),
        Some(old) => {
            let low = range_end(Side::Least, table, l)?;
            let high = range_end(Side::Greatest, table, l)?;
            Ok(Interval {
                low: stretched_low(old.low, low),
                high: stretched_high(old.high, high),
            })
        }
    }
}

/// The interval that a new value gives: a point where it is constant; else the old ends as far as the range keeps to them,
/// or everything where there was no interval.
pub(crate) fn reach_by_value(
    table: &Table,
    layer: u64,
    action: u32,
    place: usize,
    f: u64,
    l: &Lin,
) -> Result<Interval, LayerFail>
    ensures { AnswersParts layer action (map (λ o. (RangePart.Set place, o)) (set_operations (layer_of table.now) f l.now)) (if is_empty l.now.terms then point l.now.constant else reached_by_range (layer_of table.now) l.now (interval_in table.now.intervals f)) result }
{
    if place > u32::MAX as usize {
        return Err(LayerFail::Memory);
    }
    match reached_by_value(table, f, l) {
        Ok(interval) => Ok(interval),
        Err(wide) => Err(passing(layer, action, RangePart::Set(place as u32), wide)),
    }
}
