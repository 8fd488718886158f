//! Whether an instance is clean: no two leaves of its effect change one function, unless both are `increase` or `decrease`.
ghost use Rattle.std.specs.Prelude.{◌≡◌, not, bytes_eq, map, length};
ghost use Rattle.std.specs.List.{list_all};
ghost use Rattle.plan_step.specs.Meaning.{objects_of, adds_up, clashes};
ghost use Rattle.ground_action.specs.Leaves.{written};
ghost use Rattle.ground_action.specs.Leaves as leaves;

use ground_parts::object;
use pddl_task::{Effect, NumOp, Term};

fn is_sum(op: NumOp) -> bool
    ensures { result ≡ adds_up op }
{
    matches!(op, NumOp::Increase | NumOp::Decrease)
}

/// Whether the terms stand for the same objects.
fn are_same(args: &[u32], terms: &[Term], others: &[Term]) -> bool
    ensures { result ≡ bytes_eq (objects_of args.now terms.now) (objects_of args.now others.now) }
{
    if terms.len() != others.len() {
        return false;
    }
    for (i, term) in terms.iter().enumerate() {
        if object(args, *term) != object(args, others[i]) {
            return false;
        }
    }
    true
}

/// Whether both change one function, not both by `increase` or `decrease`.
fn clash(args: &[u32], effect: &Effect, other: &Effect) -> bool
    ensures { result ≡ clashes (written args.now effect.now) (written args.now other.now) }
{
    let Effect::Change {
        op,
        func,
        args: terms,
        ..
    } = effect
    else {
        return false;
    };
    let Effect::Change {
        op: other_op,
        func: other_func,
        args: others,
        ..
    } = other
    else {
        return false;
    };
    *func == *other_func
        && are_same(args, terms.as_slice(), others.as_slice())
        && !(is_sum(*op) && is_sum(*other_op))
}

/// Whether none of the later leaves clashes with it.
fn is_alone(args: &[u32], effect: &Effect, later: &[Effect]) -> bool
    ensures { result ≡ list_all (λ d. not (clashes d (written args.now effect.now))) (map (written args.now) later.now) }
{
    for other in later {
        if clash(args, other, effect) {
            return false;
        }
    }
    true
}

/// Each leaf is compared with those behind it, which is for the few leaves of one action.
pub(crate) fn are_clean(args: &[u32], effects: &[Effect]) -> bool
    ensures { result ≡ leaves.are_clean (map (written args.now) effects.now) }
{
    for (i, effect) in effects.iter().enumerate() {
        if !is_alone(args, effect, &effects[i + 1..]) {
            return false;
        }
    }
    true
}
