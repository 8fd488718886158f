//! The draft of the goal: its leaves one by one, each made whole before the next. Begin with `goal_draft`.
ghost use Rattle.std.specs.Prelude.{◌≡◌, true, [], ◌++◌, ◌∷◌, IfOk, OnOk};
ghost use Rattle.lin.specs.Operations.{AnswersInMemory};
ghost use Rattle.pddl_task.specs.WellFormed.{IsWellFormed};
ghost use Rattle.plan_step.specs.Meaning as meaning;
ghost use Rattle.plan_step.specs.Meaning.{objects_of};
ghost use Rattle.ground_numbers.specs.Numbers.{named};
ghost use Rattle.ground_action.specs.GroundAction.{goal_leaves, is_numbered};
ghost use Rattle.ground_action.specs.Work.{work_of, sides_ops, goal_ops};
ghost use Rattle.ground_parts.specs.Forms.{setting_in, part_made};
ghost use Rattle.ground_draft.specs.Drafts.{goal_draft_of};
ghost use Rattle.ground_draft.specs.inside.Made.{sides_made};
ghost use Rattle.ground_draft.specs.inside.Lists.{leaf_ops, leaf_compared, condition_reads};
ghost use Rattle.ground_draft.specs.inside.Goal as goal;

use crate::draft::Draft;
use crate::instance::distinct;
use crate::leaves::{Leaf, sides};
use crate::lists::{compare_leaf, put_literal};
use crate::reads::add_condition;
use crate::rising::rising;
use frac128::Frac;
use ground_parts::{Compared, Grounding, changes_pred, number, object, objects};
use ground_tests::{condition_has_values, signed};
use lin::{Cmp, Lin, LinFail};
use pddl_task::{Cond, Expr, Rel, Task, Term};
use sqlite_items::Items;
use std::alloc::{AllocError, Global};
use task_core::GAction;

/// What is left of a leaf of the goal.
#[derive(Debug, Drop)]
pub(crate) enum Target {
    /// It holds in each state.
    Nothing,
    /// It fails in each state.
    Fails,
    /// The atom with this number, and the truth that it must have.
    Literal(u64, bool),
    /// An expression, and how its value compares with 0.
    Compared(Lin, Cmp),
}

/// What is left of leaves in text order, and the functions without an initial value that they read.
#[derive(Debug, Drop)]
pub(crate) struct Targets {
    lits: Items<(u64, bool)>,
    cmps: Items<(Lin, Cmp)>,
    reads: Items<u64>,
}

fn settled(holds: bool) -> Target
    ensures { result ≡ goal.settled holds }
{
    if holds {
        Target::Nothing
    } else {
        Target::Fails
    }
}

fn compared(compared: Compared) -> Target
    ensures { result ≡ goal.compared compared }
{
    match compared {
        Compared::Settled(holds) => settled(holds),
        Compared::Left(lin, cmp) => Target::Compared(lin, cmp),
    }
}

fn compared_leaf(alloc: Global, leaf: &Leaf) -> Result<Target, LinFail>
    ensures { AnswersInMemory (leaf_ops leaf.now) (goal.compared (leaf_compared leaf.now)) result }
{
    let left = compare_leaf(alloc, leaf)?;
    Ok(compared(left))
}

fn compare(
    alloc: Global,
    given: &Grounding,
    rel: Rel,
    left: &Expr,
    right: &Expr,
) -> Result<Target, LinFail>
    ensures { AnswersInMemory (sides_ops (setting_in given.now) [] left.now right.now ++ goal.sides_target_ops (sides_made rel (part_made (work_of (setting_in given.now) [] left.now).outcome) (part_made (work_of (setting_in given.now) [] right.now).outcome)))
        (goal.sides_target (sides_made rel (part_made (work_of (setting_in given.now) [] left.now).outcome) (part_made (work_of (setting_in given.now) [] right.now).outcome))) result }
{
    let Some(leaf) = sides(alloc, given, &[], rel, left, right)? else {
        return Ok(Target::Fails);
    };
    compared_leaf(alloc, &leaf)
}

fn atom(
    alloc: Global,
    given: &Grounding,
    sign: bool,
    pred: u32,
    terms: &[Term],
) -> Result<Target, AllocError>
    ensures { IfOk result (λ t. t ≡ goal.atom_target (setting_in given.now) given.now.atoms.now sign (named pred (objects_of [] terms.now))) }
{
    let objects = objects(alloc, &[], terms)?;
    if changes_pred(given.task, pred) {
        let number = number(given.atoms, pred, objects.as_slice());
        return Ok(Target::Literal(number, sign));
    }
    let holds = given.start.atom(pred, objects.as_slice());
    Ok(settled(signed(sign, holds)))
}

fn make_target(alloc: Global, given: &Grounding, cond: &Cond) -> Result<Target, LinFail>
    ensures { AnswersInMemory (goal.target_ops (setting_in given.now) cond.now) (goal.target_of (setting_in given.now) given.now.atoms.now cond.now) result }
{
    match cond {
        Cond::Lit {
            pos,
            pred,
            args: terms,
        } => Ok(atom(alloc, given, *pos, *pred, terms.as_slice())?),
        Cond::Same { pos, left, right } => {
            Ok(settled(signed(*pos, object(&[], *left) == object(&[], *right))))
        }
        Cond::Compare { rel, left, right } => {
            if !condition_has_values(alloc, given, &[], cond)? {
                return Ok(Target::Fails);
            }
            compare(alloc, given, *rel, left, right)
        }
    }
}

/// 1 <= 0.
fn never(alloc: Global) -> (Lin, Cmp)
    ensures { result ≡ goal.never }
{
    (Lin::fixed(alloc, Frac::ratio(1, 1)), Cmp::Le)
}

fn put_target(
    alloc: Global,
    given: &Grounding,
    targets: &mut Targets,
    cond: &Cond,
    next: Target,
) -> Result<(), AllocError>
    ensures { OnOk result (targets.new ≡ goal.with_target targets.old (condition_reads (setting_in given.now) [] cond.now) next) }
{
    match next {
        Target::Nothing => Ok(()),
        Target::Fails => {
            targets.cmps.push(never(alloc))?;
            Ok(())
        }
        Target::Literal(number, sign) => put_literal(&mut targets.lits, (number, sign)),
        Target::Compared(lin, cmp) => {
            targets.cmps.push((lin, cmp))?;
            add_condition(alloc, given, &[], &mut targets.reads, cond)
        }
    }
}

fn all_targets(alloc: Global, given: &Grounding, conds: &[Cond]) -> Result<Targets, LinFail>
    ensures { AnswersInMemory (goal.targets_ops (setting_in given.now) given.now.atoms.now conds.now) (goal.targets_of (setting_in given.now) given.now.atoms.now conds.now) result }
{
    let mut targets = Targets {
        lits: Items::new(alloc),
        cmps: Items::new(alloc),
        reads: Items::new(alloc),
    };
    for cond in conds {
        let next = make_target(alloc, given, cond)?;
        put_target(alloc, given, &mut targets, cond, next)?;
    }
    Ok(targets)
}

fn as_draft(alloc: Global, targets: Targets) -> Result<Draft, AllocError>
    ensures { IfOk result (λ d. d ≡ goal.targets_draft targets) }
{
    let reads = rising(alloc, targets.reads.as_slice())?;
    let Targets { lits, cmps, .. } = targets;
    Ok(Draft {
        action: GAction {
            lits,
            cmps,
            adds: Items::new(alloc),
            dels: Items::new(alloc),
            incs: Items::new(alloc),
            sets: Items::new(alloc),
        },
        reads,
        assigns: Items::new(alloc),
    })
}

fn drafted(alloc: Global, given: &Grounding, conds: &[Cond]) -> Result<Draft, LinFail>
    ensures { AnswersInMemory (goal.targets_ops (setting_in given.now) given.now.atoms.now conds.now) (goal.targets_draft (goal.targets_of (setting_in given.now) given.now.atoms.now conds.now)) result }
{
    let targets = all_targets(alloc, given, conds)?;
    Ok(as_draft(alloc, targets)?)
}

fn formed(task: &Task)
    ensures { IsWellFormed task.now }
{
    task.well_formed();
}

/// The draft of the ground goal, whose atoms and functions have numbers: an action without effects, in which a leaf that fails
/// in each state is the comparison 1 <= 0. Or the first operation that passes, leaf by leaf.
pub fn goal_draft(alloc: Global, given: &Grounding) -> Result<Draft, LinFail>
    requires numbered { is_numbered (setting_in given.now) (goal_leaves (setting_in given.now) given.now.task.now.goal) [] ≡ true }
    ensures { AnswersInMemory (goal_ops (setting_in given.now) given.now.task.now.goal) (goal_draft_of (setting_in given.now) given.now.atoms.now given.now.task.now.goal) result }
{
    distinct(given.funcs);
    formed(given.task);
    drafted(alloc, given, given.task.goal())
}
