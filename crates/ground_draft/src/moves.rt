//! What the effects of an instance do. Begin with `all_moves`.
ghost use Rattle.std.specs.Prelude.{◌≡◌, IfOk};
ghost use Rattle.lin.specs.Operations.{AnswersInMemory};
ghost use Rattle.plan_step.specs.Meaning.{objects_of};
ghost use Rattle.ground_numbers.specs.Numbers.{named, same, number_in};
ghost use Rattle.ground_action.specs.Leaves.{move_of};
ghost use Rattle.ground_action.specs.GroundAction.{may_move};
ghost use Rattle.ground_action.specs.Work.{work_of, effect_ops, until_end};
ghost use Rattle.ground_parts.specs.Forms.{setting_in, part_made};
ghost use Rattle.ground_draft.specs.inside.Made.{scale_made, divisor_made, act_made, acts_made, on_func, move_made, all_made};

use frac128::Frac;
use ground_numbers::Numbers;
use ground_parts::{Grounding, Part, number, objects, part_of};
use lin::LinFail;
use pddl_task::{Effect, Expr, NumOp, Term};
use sqlite_items::Items;
use std::alloc::{AllocError, Global};

/// What becomes of a function. A factor and a divisor are constants, and the divisor isn't 0.
#[derive(Debug, Drop)]
pub(crate) enum Act {
    Assign(Part),
    Increase(Part),
    Decrease(Part),
    ScaleUp(Frac),
    ScaleDown(Frac),
}

/// What a leaf of the effect does.
#[derive(Debug, Drop)]
pub(crate) enum Move {
    /// The truth that the atom with the number gets.
    Put(bool, u64),
    /// What becomes of the function with the number.
    Change(u64, Act),
}

fn factor(part: Part) -> Option<Act>
    ensures { result ≡ scale_made (λ a. Act.ScaleUp a) part }
{
    match part {
        Part::Constant(a) => Some(Act::ScaleUp(a)),
        Part::Linear(_) => None,
    }
}

fn divisor(part: Part) -> Option<Act>
    ensures { result ≡ divisor_made part }
{
    let Part::Constant(a) = part else {
        return None;
    };
    if a.num() == 0 {
        return None;
    }
    Some(Act::ScaleDown(a))
}

/// `None` where it scales by what isn't constant, or divides by 0.
fn make_act(op: NumOp, part: Part) -> Option<Act>
    ensures { result ≡ act_made op part }
{
    match op {
        NumOp::Assign => Some(Act::Assign(part)),
        NumOp::Increase => Some(Act::Increase(part)),
        NumOp::Decrease => Some(Act::Decrease(part)),
        NumOp::ScaleUp => factor(part),
        NumOp::ScaleDown => divisor(part),
    }
}

fn act_by(
    alloc: Global,
    given: &Grounding,
    args: &[u32],
    op: NumOp,
    by: &Expr,
) -> Result<Option<Act>, LinFail>
    ensures { AnswersInMemory (work_of (setting_in given.now) args.now by.now).ops (acts_made op (part_made (work_of (setting_in given.now) args.now by.now).outcome)) result }
{
    let Some(part) = part_of(alloc, given, args, by)? else {
        return Ok(None);
    };
    Ok(make_act(op, part))
}

/// The number of an atom or a function, named by its arguments.
fn number_of(
    alloc: Global,
    table: &Numbers,
    args: &[u32],
    symbol: u32,
    terms: &[Term],
) -> Result<u64, AllocError>
    ensures { IfOk result (λ n. n ≡ number_in same table.now (named symbol (objects_of args.now terms.now))) }
{
    let objects = objects(alloc, args, terms)?;
    Ok(number(table, symbol, objects.as_slice()))
}

fn change(
    alloc: Global,
    given: &Grounding,
    args: &[u32],
    op: NumOp,
    func: u32,
    terms: &[Term],
    by: &Expr,
) -> Result<Option<Move>, LinFail>
    ensures { AnswersInMemory (work_of (setting_in given.now) args.now by.now).ops
        (on_func (number_in same given.now.funcs.now (named func (objects_of args.now terms.now))) (acts_made op (part_made (work_of (setting_in given.now) args.now by.now).outcome))) result }
{
    let Some(act) = act_by(alloc, given, args, op, by)? else {
        return Ok(None);
    };
    let number = number_of(alloc, given.funcs, args, func, terms)?;
    Ok(Some(Move::Change(number, act)))
}

/// What the leaf does, or `None` where it has no value in any state or isn't linear.
fn effect_move(
    alloc: Global,
    given: &Grounding,
    args: &[u32],
    effect: &Effect,
) -> Result<Option<Move>, LinFail>
    ensures { AnswersInMemory (effect_ops (setting_in given.now) args.now effect.now) (move_made (setting_in given.now) given.now.atoms.now args.now effect.now) result }
{
    match effect {
        Effect::Put {
            pos,
            pred,
            args: terms,
        } => {
            let number = number_of(alloc, given.atoms, args, *pred, terms.as_slice())?;
            Ok(Some(Move::Put(*pos, number)))
        }
        Effect::Change {
            op,
            func,
            args: terms,
            by,
        } => change(alloc, given, args, *op, *func, terms.as_slice(), by),
    }
}

/// What all leaves do, or `None` where one isn't made.
pub(crate) fn all_moves(
    alloc: Global,
    given: &Grounding,
    args: &[u32],
    effects: &[Effect],
) -> Result<Option<Items<Move>>, LinFail>
    ensures { AnswersInMemory (until_end (λ e. may_move (move_of (setting_in given.now) args.now e)) (effect_ops (setting_in given.now) args.now) effects.now)
        (all_made (move_made (setting_in given.now) given.now.atoms.now args.now) effects.now) result }
{
    let mut moves = Items::new(alloc);
    for effect in effects {
        let Some(next) = effect_move(alloc, given, args, effect)? else {
            return Ok(None);
        };
        moves.push(next)?;
    }
    Ok(Some(moves))
}
