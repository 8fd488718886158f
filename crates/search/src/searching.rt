//! The search: block after block, each with one copy of the pattern more.
ghost use Rattle.std.specs.Prelude.{◌≡◌, ◌≤◌};
ghost use Rattle.patty_run.specs.Outside.{output_seen};
ghost use Rattle.relaxed.specs.declared.failure.LayerFail.TheVariants as layers;
ghost use Rattle.relaxed.specs.Answer.{IsPassing};
ghost use Rattle.ground_laws.specs.Result.{task_from};
ghost use Rattle.search.specs.Searching.{Searches};
ghost use Rattle.search.specs.inside.Opening.{IsOpened, IsReady};

use crate::found::{Found, SearchFail};
use crate::going::{fail_of, put_block, put_pattern};
use crate::head::range_lines;
use crate::opening::{Opened, Opening, make_opening};
use crate::putting::put_lines;
use ground::Grounded;
use patty_io::Sink;
use pddl_task::Task;
use planner_text::Limits;
use relaxed::RangeWide;
use std::alloc::Global;

/// Prints the pattern and its blocks.
fn plan_layered<O: Sink>(
    alloc: Global,
    task: &Task,
    opened: &Opened,
    limits: &Limits,
    out: &mut O,
) -> Result<Found, SearchFail>
    requires opened { IsOpened task.now opened.now }
    requires copies { limits.now.max_n ≤ 1000 }
    ensures { Searches (output_seen O.written O.faults out.old out.new) task.now limits.now result }
{
    if let Err(fail) = put_pattern(alloc, task, opened, limits, out) {
        return Err(fail);
    }
    for n in 0..limits.max_n {
        match put_block(alloc, task, opened, n, limits, out) {
            Ok(None) => {}
            Ok(Some(found)) => return Ok(found),
            Err(fail) => return Err(fail),
        }
    }
    match put_block(alloc, task, opened, limits.max_n, limits, out) {
        Ok(None) => unreachable!(),
        Ok(Some(found)) => Ok(found),
        Err(fail) => Err(fail),
    }
}

/// Prints the line of a range that passes 128 bits.
fn put_range<O: Sink>(
    alloc: Global,
    task: &Task,
    grounded: &Grounded,
    range: &RangeWide,
    limits: &Limits,
    out: &mut O,
) -> Result<Found, SearchFail>
    requires ready { IsReady task.now grounded.now }
    requires passing { IsPassing (task_from task.now) (layers.RangeWide range.now) }
    ensures { Searches (output_seen O.written O.faults out.old out.new) task.now limits.now result }
{
    let _ = limits;
    let Ok(lines) = range_lines(alloc, task, grounded, range) else {
        return Err(SearchFail::Memory);
    };
    match put_lines(out, lines.as_slice()) {
        Ok(()) => Ok(Found::Unknown { n: 0, places: 0 }),
        Err(fail) => Err(fail_of(fail)),
    }
}

/// Plans for a task: the text with a block for 0, 1, 2 .. copies of its pattern is printed, one line after another, and ends
/// behind the first block that isn't refuted, or behind that of the greatest number of copies.
pub fn plan_up_to<O: Sink>(
    alloc: Global,
    task: &Task,
    limits: &Limits,
    out: &mut O,
) -> Result<Found, SearchFail>
    requires { limits.now.max_n ≤ 1000 }
    ensures { Searches (output_seen O.written O.faults out.old out.new) task.now limits.now result }
{
    match make_opening(alloc, task) {
        Ok(Opening::Layered(opened)) => plan_layered(alloc, task, &opened, limits, out),
        Ok(Opening::Unlayered { grounded, range }) => {
            put_range(alloc, task, &grounded, &range, limits, out)
        }
        Err(fail) => Err(fail),
    }
}
