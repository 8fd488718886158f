//! Which predicates and functions change, and the objects of terms.
ghost use Rattle.std.specs.Prelude.{◌≡◌, IfOk};
ghost use Rattle.pddl_task.specs.Task.{is_changing_pred, is_changing_func};
ghost use Rattle.plan_step.specs.Meaning.{object_of, objects_of};

use pddl_task::{Task, Term};
use sqlite_items::Items;
use std::alloc::{AllocError, Global};

/// Whether an effect of some action names the predicate.
pub(crate) fn changes_pred(task: &Task, pred: u32) -> bool
    ensures { result ≡ is_changing_pred task.now.actions pred }
{
    if pred >= task.preds() {
        return false;
    }
    task.changing_pred(pred)
}

/// Whether an effect of some action names the function.
pub(crate) fn changes_func(task: &Task, func: u32) -> bool
    ensures { result ≡ is_changing_func task.now.actions func }
{
    if func >= task.funcs() {
        return false;
    }
    task.changing_func(func)
}

/// The object of one term.
fn object(args: &[u32], term: Term) -> u32
    ensures { result ≡ object_of args.now term }
{
    match term {
        Term::Param(p) => args.get(p as usize).copied().unwrap_or(0),
        Term::Object(o) => o,
    }
}

/// A list of the objects.
pub(crate) fn objects(alloc: Global, args: &[u32], terms: &[Term]) -> Result<Items<u32>, AllocError>
    ensures { IfOk result (λ objects. objects ≡ objects_of args.now terms.now) }
{
    let mut objects = Vec::with_capacity(alloc, terms.len())?;
    for term in terms {
        objects.push(object(args, *term))?;
    }
    Ok(Items::from_vec(objects))
}
