//! The objects that the terms of a call stand for, at the arguments of an instance.
ghost use Rattle.std.specs.Prelude.{◌≡◌, IfOk};
ghost use Rattle.plan_step.specs.Meaning.{object_of, objects_of};

use pddl_task::Term;
use sqlite_items::Items;
use std::alloc::{AllocError, Global};

/// The object of one term.
pub fn object(args: &[u32], term: Term) -> u32
    ensures { result ≡ object_of args.now term }
{
    match term {
        Term::Param(p) => args.get(p as usize).copied().unwrap_or(0),
        Term::Object(o) => o,
    }
}

/// A list of the objects of terms.
pub fn objects(alloc: Global, args: &[u32], terms: &[Term]) -> Result<Items<u32>, AllocError>
    ensures { IfOk result (λ objects. objects ≡ objects_of args.now terms.now) }
{
    let mut objects = Vec::with_capacity(alloc, terms.len())?;
    for term in terms {
        objects.push(object(args, *term))?;
    }
    Ok(Items::from_vec(objects))
}
