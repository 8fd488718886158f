//! Whether static literals and equalities of objects hold.
ghost use Rattle.std.specs.Prelude.{◌≡◌, IfOk};
ghost use Rattle.std.specs.List.{list_all};
ghost use Rattle.plan_step.specs.Meaning as meaning;
ghost use Rattle.plan_step.specs.Meaning.{objects_of};
ghost use Rattle.ground_numbers.specs.Numbers.{named};
ghost use Rattle.ground_action.specs.Leaves.{atom_leaf};
ghost use Rattle.ground_action.specs.GroundAction.{may_hold};
ghost use Rattle.ground_action.specs.Work.{literal_may_hold};
ghost use Rattle.ground_parts.specs.Forms.{setting_in};

use ground_parts::{Grounding, changes_pred, object, objects};
use pddl_task::{Cond, Term};
use std::alloc::{AllocError, Global};

/// With the sign of a literal.
pub fn signed(pos: bool, holds: bool) -> bool
    ensures { result ≡ meaning.signed pos holds }
{
    if pos { holds } else { !holds }
}

/// Whether a literal is of a changing predicate, or holds at the start.
fn atom_may_hold(
    alloc: Global,
    given: &Grounding,
    args: &[u32],
    pos: bool,
    pred: u32,
    terms: &[Term],
) -> Result<bool, AllocError>
    ensures { IfOk result (λ may. may ≡ may_hold (atom_leaf (setting_in given.now) pos (named pred (objects_of args.now terms.now)))) }
{
    if changes_pred(given.task, pred) {
        return Ok(true);
    }
    let objects = objects(alloc, args, terms)?;
    let holds = given.start.atom(pred, objects.as_slice());
    Ok(signed(pos, holds))
}

fn may_meet(alloc: Global, given: &Grounding, args: &[u32], cond: &Cond) -> Result<bool, AllocError>
    ensures { IfOk result (λ may. may ≡ literal_may_hold (setting_in given.now) args.now cond.now) }
{
    match cond {
        Cond::Lit {
            pos,
            pred,
            args: terms,
        } => atom_may_hold(alloc, given, args, *pos, *pred, terms.as_slice()),
        Cond::Same { pos, left, right } => {
            Ok(signed(*pos, object(args, *left) == object(args, *right)))
        }
        Cond::Compare { .. } => Ok(true),
    }
}

/// Whether no literal and no equality fails.
pub(crate) fn may_all_meet(
    alloc: Global,
    given: &Grounding,
    args: &[u32],
    conds: &[Cond],
) -> Result<bool, AllocError>
    ensures { IfOk result (λ may. may ≡ list_all (literal_may_hold (setting_in given.now) args.now) conds.now) }
{
    for cond in conds {
        if !may_meet(alloc, given, args, cond)? {
            return Ok(false);
        }
    }
    Ok(true)
}
