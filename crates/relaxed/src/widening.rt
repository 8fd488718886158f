//! Widening the next layer by what one supported action gives. All ranges are taken in the old layer, so what one action
//! widens is nothing to the others.
ghost use Rattle.std.specs.Prelude.{◌≡◌, OnOk, Some};
ghost use Rattle.relaxed.specs.Named.{of_sets};
ghost use Rattle.relaxed.specs.inside.Kept.{interval_in, layer_of};
ghost use Rattle.relaxed.specs.inside.Widening.{Marks, WidensOne, WidensByAmounts, WidensByValues, WidensBy};
ghost use Rattle.relaxed.specs.inside.Answering.{AnswersParts};
ghost use Rattle.task_core.specs.Task.{IsOrderly};

use crate::failure::LayerFail;
use crate::interval::{Interval, hull};
use crate::reaching::{reach_by_value, reached_by_amount};
use crate::table::{Table, interval_in};
use frac128::Frac;
use lin::Lin;
use sqlite_items::Items;
use task_core::GAction;

/// Atoms that may be so too.
fn mark(flags: &mut Items<bool>, atoms: &[u64])
    ensures { Marks flags.old flags.new atoms.now }
{
    for i in 0..atoms.len() {
        let p = atoms[i] as usize;
        if p < flags.len() {
            flags.set(p, true);
        }
    }
}

/// The interval of one function, made wider.
fn widen_one(intervals: &mut Items<Option<Interval>>, f: u64, by: Option<Interval>)
    ensures { WidensOne intervals.old intervals.new f by }
{
    let place = f as usize;
    if place < intervals.len() {
        let wider = hull(intervals.as_slice()[place], by);
        intervals.set(place, wider);
    }
}

/// The intervals of the functions that grow.
fn widen_by_amounts(
    intervals: &mut Items<Option<Interval>>,
    old: &[Option<Interval>],
    incs: &[(u64, Frac)],
)
    ensures { WidensByAmounts (interval_in old.now) intervals.old intervals.new incs.now }
{
    for i in 0..incs.len() {
        let (f, amount) = incs[i];
        widen_one(
            intervals,
            f,
            reached_by_amount(&amount, interval_in(old, f)),
        );
    }
}

/// The intervals of the functions that are given values.
fn widen_by_values(
    intervals: &mut Items<Option<Interval>>,
    table: &Table,
    layer: u64,
    action: u32,
    sets: &[(u64, Lin)],
) -> Result<(), LayerFail>
    ensures answers { AnswersParts layer action (of_sets (layer_of table.now) 0 sets.now) tt result }
    ensures widens { OnOk result (WidensByValues (layer_of table.now) intervals.old intervals.new sets.now) }
{
    for i in 0..sets.len() {
        let set = &sets[i];
        match reach_by_value(table, layer, action, i, set.0, &set.1) {
            Ok(reached) => widen_one(intervals, set.0, Some(reached)),
            Err(fail) => return Err(fail),
        }
    }
    Ok(())
}

/// All that one action gives.
pub(crate) fn widen(
    next: &mut Table,
    table: &Table,
    layer: u64,
    action: u32,
    a: &GAction,
) -> Result<(), LayerFail>
    requires { IsOrderly a.now }
    ensures answers { AnswersParts layer action (of_sets (layer_of table.now) 0 a.now.sets) tt result }
    ensures widens { OnOk result (WidensBy (layer_of table.now) a.now next.old next.new) }
{
    mark(&mut next.may_be_true, a.adds.as_slice());
    mark(&mut next.may_be_false, a.dels.as_slice());
    let old = table.intervals.as_slice();
    widen_by_amounts(&mut next.intervals, old, a.incs.as_slice());
    widen_by_values(&mut next.intervals, table, layer, action, a.sets.as_slice())
}
