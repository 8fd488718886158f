//! What is left of the conditions of an instance whose static literals and equalities hold. Begin with `all_leaves`.
ghost use Rattle.std.specs.Prelude.{◌≡◌, IfOk};
ghost use Rattle.std.specs.List.{list_all};
ghost use Rattle.lin.specs.Operations.{AnswersInMemory};
ghost use Rattle.plan_step.specs.Meaning.{objects_of};
ghost use Rattle.ground_numbers.specs.Numbers.{named};
ghost use Rattle.ground_action.specs.Work.{work_of, sides_ops, condition_ops, condition_made, until_end};
ghost use Rattle.ground_parts.specs.Forms.{setting_in, part_made};
ghost use Rattle.ground_draft.specs.inside.Made as made;
ghost use Rattle.ground_draft.specs.inside.Made.{sides_made, literal_made, leaf_made, leaf_holds, all_made};

use ground_parts::{Grounding, Part, changes_pred, is_related, number, objects, part_of};
use lin::LinFail;
use pddl_task::{Cond, Expr, Rel, Term};
use sqlite_items::Items;
use std::alloc::{AllocError, Global};

/// What is left of a leaf of the condition.
#[derive(Debug, Drop)]
pub(crate) enum Leaf {
    /// It holds in each state.
    Nothing,
    /// The atom with this number, and the truth that it must have.
    Literal(u64, bool),
    /// Two sides, and how they are to be related.
    Sides(Rel, Part, Part),
}

fn literal(
    alloc: Global,
    given: &Grounding,
    args: &[u32],
    sign: bool,
    pred: u32,
    terms: &[Term],
) -> Result<Leaf, AllocError>
    ensures { IfOk result (λ l. l ≡ literal_made (setting_in given.now) given.now.atoms.now sign (named pred (objects_of args.now terms.now))) }
{
    if !changes_pred(given.task, pred) {
        return Ok(Leaf::Nothing);
    }
    let objects = objects(alloc, args, terms)?;
    let number = number(given.atoms, pred, objects.as_slice());
    Ok(Leaf::Literal(number, sign))
}

/// Both sides, the left one first.
pub(crate) fn sides(
    alloc: Global,
    given: &Grounding,
    args: &[u32],
    rel: Rel,
    left: &Expr,
    right: &Expr,
) -> Result<Option<Leaf>, LinFail>
    ensures { AnswersInMemory (sides_ops (setting_in given.now) args.now left.now right.now)
        (sides_made rel (part_made (work_of (setting_in given.now) args.now left.now).outcome) (part_made (work_of (setting_in given.now) args.now right.now).outcome)) result }
{
    let Some(left) = part_of(alloc, given, args, left)? else {
        return Ok(None);
    };
    let Some(right) = part_of(alloc, given, args, right)? else {
        return Ok(None);
    };
    Ok(Some(Leaf::Sides(rel, left, right)))
}

/// What is left of a leaf, or `None` where a side of it has no value in any state or isn't linear.
fn make_leaf(
    alloc: Global,
    given: &Grounding,
    args: &[u32],
    cond: &Cond,
) -> Result<Option<Leaf>, LinFail>
    ensures { AnswersInMemory (condition_ops (setting_in given.now) args.now cond.now) (leaf_made (setting_in given.now) given.now.atoms.now args.now cond.now) result }
{
    match cond {
        Cond::Lit {
            pos,
            pred,
            args: terms,
        } => Ok(Some(literal(alloc, given, args, *pos, *pred, terms.as_slice())?)),
        Cond::Same { .. } => Ok(Some(Leaf::Nothing)),
        Cond::Compare { rel, left, right } => sides(alloc, given, args, *rel, left, right),
    }
}

/// What is left of all leaves, or `None` where one isn't made.
pub(crate) fn all_leaves(
    alloc: Global,
    given: &Grounding,
    args: &[u32],
    conds: &[Cond],
) -> Result<Option<Items<Leaf>>, LinFail>
    ensures { AnswersInMemory (until_end (condition_made (setting_in given.now) args.now) (condition_ops (setting_in given.now) args.now) conds.now)
        (all_made (leaf_made (setting_in given.now) given.now.atoms.now args.now) conds.now) result }
{
    let mut leaves = Items::new(alloc);
    for cond in conds {
        let Some(leaf) = make_leaf(alloc, given, args, cond)? else {
            return Ok(None);
        };
        leaves.push(leaf)?;
    }
    Ok(Some(leaves))
}

fn sides_hold(rel: Rel, left: &Part, right: &Part) -> bool
    ensures { result ≡ made.sides_hold rel left.now right.now }
{
    match (left, right) {
        (Part::Constant(a), Part::Constant(b)) => is_related(rel, a, b),
        _ => true,
    }
}

fn holds(leaf: &Leaf) -> bool
    ensures { result ≡ leaf_holds leaf.now }
{
    match leaf {
        Leaf::Sides(rel, left, right) => sides_hold(*rel, left, right),
        _ => true,
    }
}

/// Whether each comparison of two constants holds.
pub(crate) fn all_hold(leaves: &[Leaf]) -> bool
    ensures { result ≡ list_all leaf_holds leaves.now }
{
    for leaf in leaves {
        if !holds(leaf) {
            return false;
        }
    }
    true
}
