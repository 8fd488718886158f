//! The lines in front of the blocks: those of the pattern, or the one of a range that passes.
ghost use Rattle.std.specs.Prelude.{◌≡◌, ◌<◌, ◌∷◌, ◌++◌, [], length, codes, IfOk};
ghost use Rattle.ground_walk.specs.Walk.{kept_instances};
ghost use Rattle.ground_plans.specs.Plans.{instance_at};
ghost use Rattle.pattern_text.specs.Lines as rows;
ghost use Rattle.patty_run.specs.Printed.{line};
ghost use Rattle.planner_text.specs.Lines as lines;
ghost use Rattle.search.specs.inside.Opening.{IsOpened, IsReady};

use crate::block::line_from;
use crate::instance::instance_of;
use crate::opening::Opened;
use ground::Grounded;
use pattern_text::{write_header, write_place, write_range};
use pddl_task::Task;
use relaxed::RangeWide;
use sqlite_items::Items;
use std::alloc::{AllocError, Global};
use task_core::rollable;

fn header_line(alloc: Global, places: u64) -> Result<Items<u8>, AllocError>
    ensures { IfOk result (λ l. l ≡ rows.header_line places) }
{
    let mut bytes = Vec::new(alloc);
    write_header(places, &mut bytes)?;
    Ok(Items::from_vec(bytes))
}

/// The line of the place with this number, which is this action.
fn place_line(
    alloc: Global,
    task: &Task,
    opened: &Opened,
    number: u64,
    action: u32,
) -> Result<Items<u8>, AllocError>
    requires opened { IsOpened task.now opened.now }
    requires within { action < length (kept_instances task.now) }
    ensures { IfOk result (λ l. l ≡ lines.line_of_place task.now number action) }
{
    let rolls = rollable(&opened.grounded.task().actions()[action as usize]);
    let by = instance_of(task, &opened.grounded, action);
    let mut bytes = Vec::new(alloc);
    write_place(task, number, rolls, by, &mut bytes)?;
    Ok(Items::from_vec(bytes))
}

/// The lines of the pattern.
pub(crate) fn pattern_lines(
    alloc: Global,
    task: &Task,
    opened: &Opened,
) -> Result<Items<Items<u8>>, AllocError>
    requires { IsOpened task.now opened.now }
    ensures { IfOk result (λ ls. ls ≡ lines.pattern_lines task.now opened.now.pattern) }
{
    let places = opened.pattern.places();
    let mut lines = Items::new(alloc);
    lines.push(header_line(alloc, places.len() as u64)?)?;
    for (i, place) in places.iter().enumerate() {
        lines.push(place_line(alloc, task, opened, i as u64 + 1, *place)?)?;
    }
    Ok(lines)
}

fn range_line(
    alloc: Global,
    task: &Task,
    grounded: &Grounded,
    range: &RangeWide,
) -> Result<Items<u8>, AllocError>
    requires ready { IsReady task.now grounded.now }
    requires within { range.now.action < length (kept_instances task.now) }
    ensures { IfOk result (λ l. l ≡ rows.range_line task.now (instance_at task.now range.now.action) range.now) }
{
    let by = instance_of(task, grounded, range.action);
    let mut bytes = Vec::new(alloc);
    write_range(task, by, range, &mut bytes)?;
    Ok(Items::from_vec(bytes))
}

/// The line of a range that passes, and the end of the text.
pub(crate) fn range_lines(
    alloc: Global,
    task: &Task,
    grounded: &Grounded,
    range: &RangeWide,
) -> Result<Items<Items<u8>>, AllocError>
    requires ready { IsReady task.now grounded.now }
    requires within { range.now.action < length (kept_instances task.now) }
    ensures { IfOk result (λ ls. ls ≡ rows.range_line task.now (instance_at task.now range.now.action) range.now ∷ line (codes "end") ∷ []) }
{
    let mut lines = Items::new(alloc);
    lines.push(range_line(alloc, task, grounded, range)?)?;
    lines.push(line_from(alloc, "end\n")?)?;
    Ok(lines)
}
