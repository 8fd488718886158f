//! A layer as it is kept: a truth that an atom may have by its number, and the interval of a function.
ghost use Rattle.std.specs.Prelude.{◌≡◌};
ghost use Rattle.relaxed.specs.inside.Kept.{interval_in};

use crate::interval::{Interval, point, zero};
use sqlite_items::Items;

/// For each atom whether it may be true and whether it may be false; for each function its interval, if it has one.
#[derive(Debug, Drop)]
pub struct Table {
    pub may_be_true: Items<bool>,
    pub may_be_false: Items<bool>,
    pub intervals: Items<Option<Interval>>,
}

pub(crate) fn interval_in(intervals: &[Option<Interval>], f: u64) -> Option<Interval>
    ensures { result ≡ interval_in intervals.now f }
{
    let f = f as usize;
    if f < intervals.len() {
        intervals[f]
    } else {
        Some(point(zero()))
    }
}
