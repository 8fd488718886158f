//! What becomes of each changed function: an amount that it grows by, or a new value. Begin with `all_rows`.
ghost use Rattle.std.specs.Prelude.{◌≡◌, [], ◌∷◌, IfOk, OnOk};
ghost use Rattle.rational.specs.Fraction.{◌+ℚ◌};
ghost use Rattle.lin.specs.Linear.{add};
ghost use Rattle.lin.specs.Made.{add_ops};
ghost use Rattle.lin.specs.Negative.{negative};
ghost use Rattle.lin.specs.Operations.{adding, AnswersInOrder, AnswersInMemory};
ghost use Rattle.ground_parts.specs.inside.Parts.{linear_form};
ghost use Rattle.ground_draft.specs.inside.Acts as acts;

use crate::moves::{Act, Move};
use frac128::{Frac, Wide};
use ground_parts::Part;
use lin::{Lin, LinFail};
use sqlite_items::Items;
use std::alloc::{AllocError, Global};

/// What becomes of one function.
#[derive(Debug, Drop)]
pub(crate) enum Row {
    Same,
    Grows(Frac),
    Becomes(Lin),
}

/// The amounts that functions grow by, and the new values of others, by number.
#[derive(Debug, Drop)]
pub(crate) struct Rows {
    pub(crate) incs: Items<(u64, Frac)>,
    pub(crate) sets: Items<(u64, Lin)>,
}

// ---- an act
fn is_constant(part: &Part) -> bool
    ensures { result ≡ acts.is_constant part.now }
{
    match part {
        Part::Constant(_) => true,
        Part::Linear(_) => false,
    }
}

fn amount_of(part: &Part) -> Frac
    ensures { result ≡ acts.amount_of part.now }
{
    match part {
        Part::Constant(a) => *a,
        Part::Linear(_) => Frac::ratio(0, 1),
    }
}

/// Whether it is an increase or a decrease by a constant.
fn is_step(act: &Act) -> bool
    ensures { result ≡ acts.is_step act.now }
{
    match act {
        Act::Increase(part) => is_constant(part),
        Act::Decrease(part) => is_constant(part),
        _ => false,
    }
}

fn add(x: &Frac, y: &Frac) -> Result<Frac, Wide>
    ensures { AnswersInOrder (adding x.now y.now ∷ []) (x.now +ℚ y.now) result }
{
    x.add(y)
}

/// The sum after it. A decrease is negated.
fn grow(act: &Act, sum: &Frac) -> Result<Frac, Wide>
    ensures { AnswersInOrder (acts.grow_ops act.now sum.now) (acts.grow act.now sum.now) result }
{
    match act {
        Act::Increase(part) => add(sum, &amount_of(part)),
        Act::Decrease(part) => add(sum, &amount_of(part).neg()),
        _ => Ok(*sum),
    }
}

/// The part as an expression of its own.
fn linear(alloc: Global, part: &Part) -> Result<Lin, AllocError>
    ensures { IfOk result (λ l. l ≡ linear_form part.now) }
{
    match part {
        Part::Constant(a) => Ok(Lin::fixed(alloc, *a)),
        Part::Linear(l) => l.try_clone(),
    }
}

fn increased(alloc: Global, part: &Part, so_far: &Lin) -> Result<Lin, LinFail>
    ensures { AnswersInMemory (add_ops so_far.now (linear_form part.now)) (add so_far.now (linear_form part.now)) result }
{
    let part = linear(alloc, part)?;
    so_far.add(&part)
}

fn decreased(alloc: Global, part: &Part, so_far: &Lin) -> Result<Lin, LinFail>
    ensures { AnswersInMemory (add_ops so_far.now (negative (linear_form part.now))) (add so_far.now (negative (linear_form part.now))) result }
{
    let part = linear(alloc, part)?;
    let negative = part.neg()?;
    so_far.add(&negative)
}

fn divided(by: &Frac, so_far: &Lin) -> Result<Lin, LinFail>
    ensures { AnswersInMemory (acts.become_ops (Act.ScaleDown by.now) so_far.now) (acts.become (Act.ScaleDown by.now) so_far.now) result }
{
    if by.num() == 0 {
        return Ok(so_far.try_clone()?);
    }
    so_far.div(by)
}

/// The new value after it. No act divides by 0.
fn become_next(alloc: Global, act: &Act, so_far: &Lin) -> Result<Lin, LinFail>
    ensures { AnswersInMemory (acts.become_ops act.now so_far.now) (acts.become act.now so_far.now) result }
{
    match act {
        Act::Assign(part) => Ok(linear(alloc, part)?),
        Act::Increase(part) => increased(alloc, part, so_far),
        Act::Decrease(part) => decreased(alloc, part, so_far),
        Act::ScaleUp(by) => so_far.scale(by),
        Act::ScaleDown(by) => divided(by, so_far),
    }
}

// ---- the acts on one function
fn is_step_by(func: u64, next: &Move) -> bool
    ensures { result ≡ acts.step_by func next.now }
{
    match next {
        Move::Put(_, _) => true,
        Move::Change(n, act) => *n != func || is_step(act),
    }
}

fn grow_by(func: u64, sum: &Frac, next: &Move) -> Result<Frac, Wide>
    ensures { AnswersInOrder (acts.grow_ops_by func sum.now next.now) (acts.grow_by func sum.now next.now) result }
{
    let Move::Change(n, act) = next else {
        return Ok(*sum);
    };
    if *n != func {
        return Ok(*sum);
    }
    grow(act, sum)
}

fn become_by(alloc: Global, func: u64, so_far: Lin, next: &Move) -> Result<Lin, LinFail>
    ensures { AnswersInMemory (acts.become_ops_by func so_far next.now) (acts.become_by func so_far next.now) result }
{
    let Move::Change(n, act) = next else {
        return Ok(so_far);
    };
    if *n != func {
        return Ok(so_far);
    }
    become_next(alloc, act, &so_far)
}

/// Whether each act on the function is an increase or a decrease by a constant.
fn is_stepped(moves: &[Move], func: u64) -> bool
    ensures { result ≡ acts.is_stepped_at moves.now func }
{
    for next in moves {
        if !is_step_by(func, next) {
            return false;
        }
    }
    true
}

/// The sum of such acts, from 0.
fn sum(moves: &[Move], func: u64) -> Result<Frac, Wide>
    ensures { AnswersInOrder (acts.sum_ops_at moves.now func) (acts.sum_at moves.now func) result }
{
    let mut sum = Frac::ratio(0, 1);
    for next in moves {
        sum = grow_by(func, &sum, next)?;
    }
    Ok(sum)
}

/// What other acts make of the function, from the function itself.
fn new_value(alloc: Global, moves: &[Move], func: u64) -> Result<Lin, LinFail>
    ensures { AnswersInMemory (acts.value_ops_at moves.now func) (acts.value_at moves.now func) result }
{
    let mut so_far = Lin::var(alloc, func)?;
    for next in moves {
        so_far = become_by(alloc, func, so_far, next)?;
    }
    Ok(so_far)
}

// ---- rows
fn sum_row(sum: Frac) -> Row
    ensures { result ≡ acts.sum_row sum }
{
    if sum.num() == 0 {
        Row::Same
    } else {
        Row::Grows(sum)
    }
}

fn make_row(alloc: Global, moves: &[Move], func: u64) -> Result<Row, LinFail>
    ensures { AnswersInMemory (acts.row_ops_at moves.now func) (acts.row_at moves.now func) result }
{
    if is_stepped(moves, func) {
        return Ok(sum_row(sum(moves, func)?));
    }
    Ok(Row::Becomes(new_value(alloc, moves, func)?))
}

fn put_row(rows: &mut Rows, func: u64, row: Row) -> Result<(), AllocError>
    ensures { OnOk result (rows.new ≡ acts.with_row rows.old func row) }
{
    match row {
        Row::Same => {}
        Row::Grows(by) => rows.incs.push((func, by))?,
        Row::Becomes(value) => rows.sets.push((func, value))?,
    }
    Ok(())
}

/// The rows of these functions.
pub(crate) fn all_rows(alloc: Global, moves: &[Move], funcs: &[u64]) -> Result<Rows, LinFail>
    ensures { AnswersInMemory (acts.rows_ops_at moves.now funcs.now) (acts.rows_at moves.now funcs.now) result }
{
    let mut rows = Rows {
        incs: Items::new(alloc),
        sets: Items::new(alloc),
    };
    for func in funcs {
        let row = make_row(alloc, moves, *func)?;
        put_row(&mut rows, *func, row)?;
    }
    Ok(rows)
}
