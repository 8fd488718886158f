//! Whether static conditions hold, as far as their arguments are bound.
ghost use Rattle.std.specs.Prelude.{◌≡◌, true, length, IfOk};
ghost use Rattle.std.specs.List.{list_all};
ghost use Rattle.pddl_task.specs.Numbers.{counts_of, is_condition};
ghost use Rattle.plan_step.specs.Meaning as meaning;
ghost use Rattle.plan_step.specs.Meaning.{object_of, objects_of};
ghost use Rattle.plan_step.specs.State.{initial};
ghost use Rattle.plan_step.specs.Held.{state_of};
ghost use Rattle.ground_instances.specs.inside.Open as opened;

use pddl_task::{Cond, Task, Term};
use plan_step::State;
use sqlite_items::Items;
use std::alloc::{AllocError, Global};

/// The object of a term.
pub(crate) fn object(args: &[u32], term: Term) -> u32
    ensures { result ≡ object_of args.now term }
{
    match term {
        Term::Param(p) => args.get(p as usize).copied().unwrap_or(0),
        Term::Object(o) => o,
    }
}

/// The objects of terms.
pub(crate) fn objects(alloc: Global, args: &[u32], terms: &[Term]) -> Result<Items<u32>, AllocError>
    ensures { IfOk result (λ objects. objects ≡ objects_of args.now terms.now) }
{
    let mut objects = Vec::with_capacity(alloc, terms.len())?;
    for term in terms {
        objects.push(object(args, *term))?;
    }
    Ok(Items::from_vec(objects))
}

/// Whether the term stands for one of so many arguments, or for an object.
pub(crate) fn is_bound(count: usize, term: Term) -> bool
    ensures { result ≡ opened.is_bound count term }
{
    match term {
        Term::Param(p) => (p as usize) < count,
        Term::Object(_) => true,
    }
}

pub(crate) fn are_bound(count: usize, terms: &[Term]) -> bool
    ensures { result ≡ list_all (opened.is_bound count) terms.now }
{
    for term in terms {
        if !is_bound(count, *term) {
            return false;
        }
    }
    true
}

fn signed(pos: bool, holds: bool) -> bool
    ensures { result ≡ meaning.signed pos holds }
{
    if pos { holds } else { !holds }
}

/// Whether the condition holds at the first arguments, where it is static and they bind it.
fn meets(
    alloc: Global,
    task: &Task,
    start: &State,
    params: u64,
    args: &[u32],
    cond: &Cond,
) -> Result<bool, AllocError>
    requires start { state_of start.now ≡ initial task.now }
    requires numbered { is_condition (counts_of task.now) params cond.now ≡ true }
    ensures { IfOk result (λ met. met ≡ opened.met_so_far task.now args.now cond.now) }
{
    match cond {
        Cond::Lit {
            pos,
            pred,
            args: terms,
        } => {
            if task.changing_pred(*pred) {
                return Ok(true);
            }
            if are_bound(args.len(), terms.as_slice()) {
                let objects = objects(alloc, args, terms.as_slice())?;
                let holds = start.atom(*pred, objects.as_slice());
                return Ok(signed(*pos, holds));
            }
            Ok(true)
        }
        Cond::Same { pos, left, right } => {
            if !is_bound(args.len(), *left) || !is_bound(args.len(), *right) {
                return Ok(true);
            }
            Ok(signed(*pos, object(args, *left) == object(args, *right)))
        }
        Cond::Compare { .. } => Ok(true),
    }
}

/// Whether each condition does.
pub(crate) fn all_met(
    alloc: Global,
    task: &Task,
    start: &State,
    params: u64,
    args: &[u32],
    conds: &[Cond],
) -> Result<bool, AllocError>
    requires start { state_of start.now ≡ initial task.now }
    requires numbered { list_all (is_condition (counts_of task.now) params) conds.now ≡ true }
    ensures { IfOk result (λ met. met ≡ list_all (opened.met_so_far task.now args.now) conds.now) }
{
    for cond in conds {
        if !meets(alloc, task, start, params, args, cond)? {
            return Ok(false);
        }
    }
    Ok(true)
}
