//! Whether objects are of the types of parameters.
ghost use Rattle.std.specs.Prelude.{◌≡◌, true, nat_lt, length};
ghost use Rattle.std.specs.List.{list_all};
ghost use Rattle.pddl_task.specs.Numbers.{counts_of, are_types};
ghost use Rattle.plan_step.specs.Meaning as meaning;

use pddl_task::Task;
use sqlite_items::Items;

/// Whether the object is of one of the types, or of one below.
fn fits(task: &Task, types: &[u32], object: u32) -> bool
    requires { list_all (λ t. nat_lt t (length task.now.types)) types.now ≡ true }
    ensures { result ≡ meaning.fits task.now types.now object }
{
    if object >= task.objects() {
        return false;
    }
    let of = task.object_type(object);
    for t in types {
        if task.below(of, *t) {
            return true;
        }
    }
    false
}

/// Whether each of the first arguments is of its parameter's types.
pub(crate) fn all_fit(task: &Task, params: &[Items<u32>], args: &[u32]) -> bool
    requires { are_types (counts_of task.now) params.now ≡ true }
    ensures { result ≡ meaning.all_fit task.now params.now args.now }
{
    for (i, types) in params.iter().enumerate() {
        let Some(object) = args.get(i) else {
            return true;
        };
        if !fits(task, types.as_slice(), *object) {
            return false;
        }
    }
    true
}
