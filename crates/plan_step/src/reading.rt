//! Reading an atom or a function of a state, at the objects that some terms stand for. The objects are written to the
//! stack, or where they are too many for it compared one by one, so that no memory is taken.
ghost use Rattle.std.specs.Prelude.{◌≡◌, ◌≤◌, length};
ghost use Rattle.plan_step.specs.Held.{state_of};
ghost use Rattle.plan_step.specs.Meaning.{objects_of};

use crate::state::State;
use crate::terms::{object, write_objects};
use frac128::Frac;
use ground_map::Listed;
use pddl_task::Term;

/// The objects of some terms, not yet written anywhere.
#[derive(Clone, Copy)]
struct Objects<'a> {
    args: &'a [u32],
    terms: &'a [Term],
}

impl Listed for Objects<'_> {
    ghost items = { λ o. objects_of o.args.now o.terms.now };

    fn len(&self) -> usize {
        self.terms.len()
    }

    fn at(&self, i: usize) -> u32 {
        object(self.args, self.terms[i])
    }
}

fn atom_of_up_to<const N: usize>(state: &State, args: &[u32], pred: u32, terms: &[Term]) -> bool
    requires fits { length terms.now ≤ N }
    requires small { N ≤ 1024 }
    ensures { result ≡ (state_of state.now).truth pred (objects_of args.now terms.now) }
{
    let mut objects = [0; N];
    write_objects(args, terms, &mut objects);
    state.atom(pred, &objects[..terms.len()])
}

fn value_of_up_to<const N: usize>(
    state: &State,
    args: &[u32],
    func: u32,
    terms: &[Term],
) -> Option<Frac>
    requires fits { length terms.now ≤ N }
    requires small { N ≤ 1024 }
    ensures { result ≡ (state_of state.now).value func (objects_of args.now terms.now) }
{
    let mut objects = [0; N];
    write_objects(args, terms, &mut objects);
    state.value(func, &objects[..terms.len()])
}

/// Whether the atom of these terms is true, at the arguments of an instance. It takes no memory.
pub fn holds_atom(state: &State, args: &[u32], pred: u32, terms: &[Term]) -> bool
    ensures { result ≡ (state_of state.now).truth pred (objects_of args.now terms.now) }
{
    if terms.len() <= 16 {
        atom_of_up_to::<16>(state, args, pred, terms)
    } else if terms.len() <= 1024 {
        atom_of_up_to::<1024>(state, args, pred, terms)
    } else {
        state.atom_listed(pred, &Objects { args, terms })
    }
}

/// The function's value.
pub(crate) fn call(state: &State, args: &[u32], func: u32, terms: &[Term]) -> Option<Frac>
    ensures { result ≡ (state_of state.now).value func (objects_of args.now terms.now) }
{
    if terms.len() <= 16 {
        value_of_up_to::<16>(state, args, func, terms)
    } else if terms.len() <= 1024 {
        value_of_up_to::<1024>(state, args, func, terms)
    } else {
        state.value_listed(func, &Objects { args, terms })
    }
}
