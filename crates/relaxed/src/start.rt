//! Layer 0: the start.
ghost use Rattle.std.specs.Prelude.{◌≡◌, length, IfOk};
ghost use Rattle.std.specs.Option.{option_map};
ghost use Rattle.relaxed.specs.Interval.{point};
ghost use Rattle.relaxed.specs.inside.Starting.{AreStartFlags, AreStartIntervals, IsStart};

use crate::interval::{Interval, point};
use crate::table::Table;
use frac128::Frac;
use sqlite_items::Items;
use std::alloc::{AllocError, Global};
use task_core::GroundTask;

fn interval_of(value: Option<Frac>) -> Option<Interval>
    ensures { result ≡ option_map point value }
{
    match value {
        Some(x) => Some(point(x)),
        None => None,
    }
}

/// Whether each atom may be true, or may be false: as it is, or as it isn't.
fn start_flags(alloc: Global, task: &GroundTask, truth: bool) -> Result<Items<bool>, AllocError>
    ensures { IfOk result (AreStartFlags task.now truth) }
{
    let mut flags = Items::new(alloc);
    for p in 0..task.atoms() {
        flags.push(task.atom_at_start(p) == truth)?;
    }
    Ok(flags)
}

fn fill_intervals(intervals: &mut [Option<Interval>], task: &GroundTask)
    requires { length intervals.old ≡ length task.now.funcs }
    ensures { AreStartIntervals task.now intervals.new }
{
    for f in 0..task.funcs() {
        intervals[f as usize] = interval_of(task.value_at_start(f));
    }
}

/// Each value a point, and a function without a value without an interval.
fn start_intervals(alloc: Global, task: &GroundTask) -> Result<Items<Option<Interval>>, AllocError>
    ensures { IfOk result (AreStartIntervals task.now) }
{
    let mut intervals = vec![in alloc; None; task.funcs() as usize]?;
    fill_intervals(&mut intervals, task);
    Ok(Items::from_vec(intervals))
}

/// Layer 0.
pub(crate) fn start_table(alloc: Global, task: &GroundTask) -> Result<Table, AllocError>
    ensures { IfOk result (IsStart task.now) }
{
    let may_be_true = start_flags(alloc, task, true)?;
    let may_be_false = start_flags(alloc, task, false)?;
    let intervals = start_intervals(alloc, task)?;
    Ok(Table {
        may_be_true,
        may_be_false,
        intervals,
    })
}
