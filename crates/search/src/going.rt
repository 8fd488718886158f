//! Blocks are printed one behind another, until one isn't refuted or no more copies are allowed.
ghost use Rattle.std.specs.Prelude.{◌≡◌, ◌≤◌, ◌<◌, ◌++◌, ◌∷◌, [], true, ℕ, List, codes, IfOk};
ghost use Rattle.std.specs.declared.option.Option.{Option};
ghost use Rattle.patty_run.specs.Outside.{output_seen};
ghost use Rattle.patty_run.specs.Printed.{line};
ghost use Rattle.planner_text.specs.Text.{Log};
ghost use Rattle.search.specs.Searching.{EndsWith};
ghost use Rattle.search.specs.inside.Opening.{IsOpened};
ghost use Rattle.search.specs.inside.Blocks as blocks;
ghost use Rattle.search.specs.inside.Going as going;

use crate::block::{BlockEnd, Made, line_from, make_block};
use crate::found::{Found, SearchFail};
use crate::head::pattern_lines;
use crate::opening::Opened;
use crate::putting::put_lines;
use patty_io::{Sink, SinkFail};
use pddl_task::Task;
use planner_text::Limits;
use sqlite_items::Items;
use std::alloc::{AllocError, Global};

pub(crate) fn fail_of(fail: SinkFail) -> SearchFail
    ensures { result ≡ going.search_fail fail }
{
    match fail {
        SinkFail::Failed => SearchFail::Sink,
        SinkFail::Memory => SearchFail::Memory,
    }
}

/// Whether the block is refuted.
fn is_refuted(end: &BlockEnd) -> bool
    ensures { result ≡ blocks.is_refuted end.now }
{
    matches!(end, BlockEnd::Refuted)
}

/// What a text that ends with this block says.
fn found_by(end: BlockEnd, n: u32, places: u32) -> Found
    ensures { (log : Log) → EndsWith n places (blocks.block_of log end) result }
{
    match end {
        BlockEnd::Refuted => Found::NoPlan { places },
        BlockEnd::Plan(plan) => Found::Plan { n, plan, places },
        BlockEnd::Spent => Found::Unknown { n, places },
        BlockEnd::Stuck(_trace) => Found::Unknown { n, places },
        BlockEnd::Wide(_wide) => Found::Unknown { n, places },
    }
}

/// Prints the lines of the pattern.
pub(crate) fn put_pattern<O: Sink>(
    alloc: Global,
    task: &Task,
    opened: &Opened,
    limits: &Limits,
    out: &mut O,
) -> Result<(), SearchFail>
    requires { IsOpened task.now opened.now }
    ensures { going.Heads (output_seen O.written O.faults out.old out.new) task.now limits.now opened.now.pattern result }
{
    let _ = limits;
    let Ok(lines) = pattern_lines(alloc, task, opened) else {
        return Err(SearchFail::Memory);
    };
    match put_lines(out, lines.as_slice()) {
        Ok(()) => Ok(()),
        Err(fail) => Err(fail_of(fail)),
    }
}

/// Prints a block that is refuted, behind which more copies are tried.
fn put_refuted<O: Sink>(
    task: &Task,
    opened: &Opened,
    n: u32,
    limits: &Limits,
    made: Made,
    out: &mut O,
) -> Result<(), SearchFail>
    requires opened { IsOpened task.now opened.now }
    requires made { blocks.IsMade task.now limits.now opened.now.pattern n made }
    requires refuted { blocks.is_refuted made.end ≡ true }
    requires more { n < limits.now.max_n }
    ensures { (first : Option (List ℕ)) (fails : ℕ) → going.IsGoing (going.seen_since first fails (O.written out.old) (O.faults out.old)) task.now limits.now opened.now.pattern n
        → going.GoesOn (going.seen_since first fails (O.written out.new) (O.faults out.new)) task.now limits.now opened.now.pattern n result }
{
    let _ = task;
    let _ = opened;
    let _ = limits;
    match put_lines(out, made.lines.as_slice()) {
        Ok(()) => Ok(()),
        Err(fail) => Err(fail_of(fail)),
    }
}

/// The lines of the last block and the end of the text.
fn last_lines(alloc: Global, lines: Items<Items<u8>>) -> Result<Items<Items<u8>>, AllocError>
    ensures { IfOk result (λ ls. ls ≡ lines ++ line (codes "end") ∷ []) }
{
    let mut lines = lines;
    lines.push(line_from(alloc, "end\n")?)?;
    Ok(lines)
}

/// Prints the last block, and the end of the text.
fn put_last<O: Sink>(
    alloc: Global,
    task: &Task,
    opened: &Opened,
    n: u32,
    limits: &Limits,
    made: Made,
    out: &mut O,
) -> Result<Found, SearchFail>
    requires opened { IsOpened task.now opened.now }
    requires made { blocks.IsMade task.now limits.now opened.now.pattern n made }
    requires within { n ≤ limits.now.max_n }
    requires last { blocks.is_refuted made.end ≡ true → n ≡ limits.now.max_n }
    ensures { (first : Option (List ℕ)) (fails : ℕ) → going.IsGoing (going.seen_since first fails (O.written out.old) (O.faults out.old)) task.now limits.now opened.now.pattern n
        → going.Finishes (going.seen_since first fails (O.written out.new) (O.faults out.new)) task.now limits.now result }
{
    let _ = task;
    let _ = limits;
    let Made { lines, end } = made;
    let Ok(lines) = last_lines(alloc, lines) else {
        return Err(SearchFail::Memory);
    };
    match put_lines(out, lines.as_slice()) {
        Ok(()) => Ok(found_by(end, n, opened.pattern.places().len() as u32)),
        Err(fail) => Err(fail_of(fail)),
    }
}

/// Prints block n: where it is refuted and more copies are allowed, nothing is found yet.
pub(crate) fn put_block<O: Sink>(
    alloc: Global,
    task: &Task,
    opened: &Opened,
    n: u32,
    limits: &Limits,
    out: &mut O,
) -> Result<Option<Found>, SearchFail>
    requires opened { IsOpened task.now opened.now }
    requires within { n ≤ limits.now.max_n }
    requires copies { limits.now.max_n ≤ 1000 }
    ensures { (first : Option (List ℕ)) (fails : ℕ) → going.IsGoing (going.seen_since first fails (O.written out.old) (O.faults out.old)) task.now limits.now opened.now.pattern n
        → going.Advances (going.seen_since first fails (O.written out.new) (O.faults out.new)) task.now limits.now opened.now.pattern n result }
{
    let Ok(made) = make_block(alloc, task, opened, n, limits) else {
        return Err(SearchFail::Memory);
    };
    if n < limits.max_n && is_refuted(&made.end) {
        match put_refuted(task, opened, n, limits, made, out) {
            Ok(()) => Ok(None),
            Err(fail) => Err(fail),
        }
    } else {
        match put_last(alloc, task, opened, n, limits, made, out) {
            Ok(found) => Ok(Some(found)),
            Err(fail) => Err(fail),
        }
    }
}
