//! A block: it is made whole, with its lines, before any of them is printed.
ghost use Rattle.std.specs.Prelude.{◌≡◌, ◌≤◌, ◌++◌, ◌∷◌, [], true, codes, IfOk};
ghost use Rattle.formula.specs.Contents.{IsFormula};
ghost use Rattle.encode_laws.specs.Encoding.{formula_of};
ghost use Rattle.encode_laws.specs.Refusals.{operations_of, AllNamedFit};
ghost use Rattle.ground_laws.specs.Result.{task_from};
ghost use Rattle.patty_run.specs.Printed.{line};
ghost use Rattle.std.specs.Fmt.{decimal};
ghost use Rattle.plan_form.specs.Printed.{is_part_of, part_text, IsPlanOf};
ghost use Rattle.planner_text.specs.Lines as lines;
ghost use Rattle.search.specs.inside.Opening.{IsOpened};
ghost use Rattle.cert_form.specs.Spelling.{trace_lines};
ghost use Rattle.search.specs.inside.Blocks as blocks;

use crate::opening::Opened;
use crate::plan::plan_at;
use crate::solving::{Came, solve};
use cert_form::write_trace;
use encode::{AtomWide, EncodeFail, encode};
use formula::Formula;
use operation_text::write_operation;
use pddl_task::Task;
use plain_formula::plain_formula_has_no_atom;
use plan_form::{Part, Plan, write_part};
use planner_text::Limits;
use sqlite_items::Items;
use std::alloc::{AllocError, Global};
use theory_law::{NoTheory, Trace};

/// How a block ends.
#[derive(Drop)]
pub(crate) enum BlockEnd {
    Refuted,
    Plan(Plan),
    Spent,
    Stuck(Trace),
    Wide(AtomWide),
}

/// A block's lines and its end.
#[derive(Drop)]
pub(crate) struct Made {
    pub(crate) lines: Items<Items<u8>>,
    pub(crate) end: BlockEnd,
}

// ---- lines

pub(crate) fn line_from(alloc: Global, text: &str) -> Result<Items<u8>, AllocError>
    ensures { IfOk result (λ l. l ≡ text.now) }
{
    Items::from_slice(alloc, text.as_bytes())
}

fn block_line(alloc: Global, n: u32) -> Result<Items<u8>, AllocError>
    ensures { IfOk result (λ l. l ≡ line (codes "block " ++ decimal n)) }
{
    let text = format!(in alloc; "block {n}\n")?;
    line_from(alloc, text.as_str())
}

fn plan_line(alloc: Global, parts: u64) -> Result<Items<u8>, AllocError>
    ensures { IfOk result (λ l. l ≡ line (codes "plan " ++ decimal parts)) }
{
    let text = format!(in alloc; "plan {parts}\n")?;
    line_from(alloc, text.as_str())
}

fn part_line(alloc: Global, task: &Task, part: &Part) -> Result<Items<u8>, AllocError>
    requires { is_part_of task.now part.now ≡ true }
    ensures { IfOk result (λ l. l ≡ part_text task.now part.now) }
{
    let mut bytes = Vec::new(alloc);
    write_part(task, part, &mut bytes)?;
    Ok(Items::from_vec(bytes))
}

fn trace_line(alloc: Global, trace: &Trace) -> Result<Items<u8>, AllocError>
    ensures { IfOk result (λ l. l ≡ trace_lines trace.now) }
{
    let mut bytes = Vec::new(alloc);
    write_trace(trace, &mut bytes)?;
    Ok(Items::from_vec(bytes))
}

fn atom_line(alloc: Global, wide: &AtomWide) -> Result<Items<u8>, AllocError>
    ensures { IfOk result (λ l. l ≡ lines.atom_line wide.now) }
{
    let row = wide.row;
    let front = format!(in alloc; "unknown wide atom {row} ")?;
    let mut bytes = Vec::from_slice(alloc, front.as_str().as_bytes())?;
    write_operation(&wide.wide, &mut bytes)?;
    bytes.push(b'\n')?;
    Ok(Items::from_vec(bytes))
}

fn only(alloc: Global, line: Items<u8>) -> Result<Items<Items<u8>>, AllocError>
    ensures { IfOk result (λ ls. ls ≡ line ∷ []) }
{
    let mut lines = Items::new(alloc);
    lines.push(line)?;
    Ok(lines)
}

fn plan_lines(alloc: Global, task: &Task, plan: &Plan) -> Result<Items<Items<u8>>, AllocError>
    requires { IsPlanOf task.now plan.now }
    ensures { IfOk result (λ ls. ls ≡ lines.plan_lines task.now plan.now) }
{
    let parts = plan.parts();
    let mut lines = only(alloc, plan_line(alloc, parts.len() as u64)?)?;
    for part in parts {
        lines.push(part_line(alloc, task, part)?)?;
    }
    Ok(lines)
}

fn end_lines(alloc: Global, task: &Task, end: &BlockEnd) -> Result<Items<Items<u8>>, AllocError>
    requires { blocks.CanBeWritten task.now end.now }
    ensures { IfOk result (λ ls. ls ≡ lines.end_lines task.now (blocks.end_of end.now)) }
{
    match end {
        BlockEnd::Refuted => only(alloc, line_from(alloc, "refuted\n")?),
        BlockEnd::Plan(plan) => plan_lines(alloc, task, plan),
        BlockEnd::Spent => only(alloc, line_from(alloc, "unknown steps\n")?),
        BlockEnd::Stuck(trace) => only(alloc, trace_line(alloc, trace)?),
        BlockEnd::Wide(wide) => only(alloc, atom_line(alloc, wide)?),
    }
}

/// The lines of a block: its number, its log and its end.
fn block_lines(
    alloc: Global,
    task: &Task,
    n: u32,
    log: Items<Items<u8>>,
    end: &BlockEnd,
) -> Result<Items<Items<u8>>, AllocError>
    requires { blocks.CanBeWritten task.now end.now }
    ensures { IfOk result (λ ls. ls ≡ (line (codes "block " ++ decimal n) ∷ log) ++ lines.end_lines task.now (blocks.end_of end.now)) }
{
    let mut lines = only(alloc, block_line(alloc, n)?)?;
    lines.append(log)?;
    lines.append(end_lines(alloc, task, end)?)?;
    Ok(lines)
}

// ---- blocks

/// The end of a block by what came of its formula.
fn end_at(
    alloc: Global,
    task: &Task,
    opened: &Opened,
    n: u32,
    came: Came,
) -> Result<BlockEnd, AllocError>
    requires opened { IsOpened task.now opened.now }
    requires copies { n ≤ 1000 }
    requires encoded { AllNamedFit (operations_of (task_from task.now) opened.now.pattern n) }
    requires solution { blocks.Solves (formula_of (task_from task.now) opened.now.pattern n) came }
    ensures { IfOk result (blocks.EndsAs task.now opened.now.pattern n came) }
{
    match came {
        Came::Refuted => Ok(BlockEnd::Refuted),
        Came::Solution(point) => Ok(BlockEnd::Plan(plan_at(alloc, task, opened, n, &point)?)),
        Came::Spent => Ok(BlockEnd::Spent),
        Came::Stuck(trace) => Ok(BlockEnd::Stuck(trace)),
    }
}

/// Solves the formula of a block.
fn solved_block(
    alloc: Global,
    task: &Task,
    opened: &Opened,
    n: u32,
    limits: &Limits,
    formula: Formula,
) -> Result<Made, AllocError>
    requires opened { IsOpened task.now opened.now }
    requires copies { n ≤ 1000 }
    requires encoded { AllNamedFit (operations_of (task_from task.now) opened.now.pattern n) }
    requires formula { formula ≡ formula_of (task_from task.now) opened.now.pattern n }
    requires is_formula { IsFormula formula }
    ensures { IfOk result (blocks.IsMade task.now limits.now opened.now.pattern n) }
{
    plain_formula_has_no_atom();
    let attempt = solve::<NoTheory>(alloc, formula, limits)?;
    let end = end_at(alloc, task, opened, n, attempt.came)?;
    let lines = block_lines(alloc, task, n, attempt.lines, &end)?;
    Ok(Made { lines, end })
}

/// A block without a log, where an operation of making its formula passes 128 bits.
fn wide_block(alloc: Global, task: &Task, n: u32, wide: AtomWide) -> Result<Made, AllocError>
    ensures end { IfOk result (λ m. m.end ≡ BlockEnd.Wide wide) }
    ensures lines { IfOk result (λ m. m.lines ≡ line (codes "block " ++ decimal n) ∷ lines.atom_line wide ∷ []) }
{
    let end = BlockEnd::Wide(wide);
    let lines = block_lines(alloc, task, n, Items::new(alloc), &end)?;
    Ok(Made { lines, end })
}

/// Block n of a task: the formula of n copies of its pattern is made and solved.
pub(crate) fn make_block(
    alloc: Global,
    task: &Task,
    opened: &Opened,
    n: u32,
    limits: &Limits,
) -> Result<Made, AllocError>
    requires opened { IsOpened task.now opened.now }
    requires copies { n ≤ 1000 }
    ensures { IfOk result (blocks.IsMade task.now limits.now opened.now.pattern n) }
{
    match encode(alloc, opened.grounded.task(), &opened.pattern, n) {
        Ok(formula) => solved_block(alloc, task, opened, n, limits, formula),
        Err(EncodeFail::AtomWide(wide)) => wide_block(alloc, task, n, wide),
        Err(EncodeFail::Memory) => Err(AllocError),
    }
}
