//! Types: the pass over a problem, in which the arguments of its initial state and of its goal fit where they stand, and
//! nothing is given twice with another sign or another value.
//!
//! Begin with `judge_given`, which goes over the items once and keeps what was given first, and then `judge_problem_types`.
ghost use Rattle.std.specs.Prelude.{◌≡◌, ◌<◌, ◌∷◌, [], true, List, length, IfOk, OnOk};
ghost use Rattle.std.specs.List.{flat_map};
ghost use Rattle.ground_map.specs.GroundMap.{value_at};
ghost use Rattle.pddl_form.specs.Faults.{least};
ghost use Rattle.typing_names.specs.Problem as problem_spec;
ghost use Rattle.typing_types.specs.Types as types;
ghost use Rattle.typing_types.specs.Known.{AreTyped, declared_of};
ghost use Rattle.typing_names.specs.Items.{are_counted, is_counted, item_of, items_of};
ghost use Rattle.typing_types.specs.First.{AreFirst, IsNext, IsPutFirst, sign_faults, value_faults};

use crate::fit::{Known, judge_atom, judge_function};
use crate::types::judge_conditions;
use frac128::Frac;
use ground_map::GroundMap;
use pddl_form::FirstFault;
use pddl_problem::{InitAst, ProblemAst};
use std::alloc::{AllocError, Global};
use typing_names::Item;
use typing_uses::note;

fn judge_init_item(alloc: Global, known: &Known, item: &InitAst, faults: &mut FirstFault)
    requires { AreTyped (declared_of known.now) }
    ensures { faults.new ≡ least faults.old (types.item_faults (declared_of known.now) item.now) }
{
    match item {
        InitAst::Put { name, args, .. } => judge_atom(alloc, known, name, args.as_slice(), faults),
        InitAst::Value { name, args, .. } => {
            judge_function(alloc, known, name, args.as_slice(), faults)
        }
    }
}

fn judge_init(alloc: Global, known: &Known, init: &[InitAst], faults: &mut FirstFault)
    requires { AreTyped (declared_of known.now) }
    ensures { faults.new ≡ least faults.old (flat_map (types.item_faults (declared_of known.now)) init.now) }
{
    for item in init {
        judge_init_item(alloc, known, item, faults);
    }
}

/// Puts a value where there is none yet, and answers the one that was there.
fn put_first<V: Copy>(
    map: &mut GroundMap<V>,
    head: u32,
    args: &[u32],
    value: V,
) -> Result<Option<V>, AllocError>
    requires { head < length map.old }
    ensures first { IfOk result (λ first. first ≡ value_at map.old head args.now) }
    ensures put { OnOk result (IsPutFirst map.old map.new head args.now value) }
{
    let first = map.get(head, args);
    if first.is_none() {
        map.insert(head, args, value)?;
    }
    Ok(first)
}

fn other_sign(pos: bool, first: Option<bool>) -> bool
    ensures { result ≡ types.other_sign pos first }
{
    match first {
        Some(first) => first != pos,
        None => false,
    }
}

fn other_value(amount: Frac, first: Option<Frac>) -> bool
    ensures { result ≡ types.other_value amount first }
{
    match first {
        Some(first) => amount != first,
        None => false,
    }
}

fn note_differs(alloc: Global, place: u32, faults: &mut FirstFault)
    ensures { faults.new ≡ least faults.old (types.differs place ∷ []) }
{
    note(alloc, 12, place, faults);
}

fn judge_sign(
    alloc: Global,
    signs: &mut GroundMap<bool>,
    place: u32,
    pos: bool,
    pred: u32,
    args: &[u32],
    faults: &mut FirstFault,
) -> Result<(), AllocError>
    requires { pred < length signs.old }
    ensures put { OnOk result (IsPutFirst signs.old signs.new pred args.now pos) }
    ensures faults { OnOk result (faults.new ≡ least faults.old (sign_faults place pos (value_at signs.old pred args.now))) }
{
    let first = put_first(signs, pred, args, pos)?;
    if other_sign(pos, first) {
        note_differs(alloc, place, faults);
    }
    Ok(())
}

fn judge_value(
    alloc: Global,
    values: &mut GroundMap<Frac>,
    place: u32,
    func: u32,
    args: &[u32],
    amount: Frac,
    faults: &mut FirstFault,
) -> Result<(), AllocError>
    requires { func < length values.old }
    ensures put { OnOk result (IsPutFirst values.old values.new func args.now amount) }
    ensures faults { OnOk result (faults.new ≡ least faults.old (value_faults place amount (value_at values.old func args.now))) }
{
    let first = put_first(values, func, args, amount)?;
    if other_value(amount, first) {
        note_differs(alloc, place, faults);
    }
    Ok(())
}

/// An item behind others, of which the maps have what was given first.
fn judge_item(
    alloc: Global,
    signs: &mut GroundMap<bool>,
    values: &mut GroundMap<Frac>,
    item: &Item,
    faults: &mut FirstFault,
) -> Result<(), AllocError>
    requires { is_counted (length signs.old) (length values.old) (item_of item.now) ≡ true }
    ensures next { (front : List problem_spec.Item) → AreFirst signs.old values.old front → OnOk result (IsNext front (item_of item.now) signs.new values.new faults.old faults.new) }
    ensures signs { OnOk result (length signs.new ≡ length signs.old) }
    ensures values { OnOk result (length values.new ≡ length values.old) }
{
    match item {
        Item::Atom {
            place,
            pos,
            pred,
            args,
        } => judge_sign(alloc, signs, *place, *pos, *pred, args.as_slice(), faults),
        Item::Value {
            place,
            func,
            args,
            amount,
        } => judge_value(
            alloc,
            values,
            *place,
            *func,
            args.as_slice(),
            *amount,
            faults,
        ),
    }
}

/// The items that give another sign or another value than was given first, of so many predicates and functions.
fn judge_given(
    alloc: Global,
    preds: usize,
    funcs: usize,
    items: &[Item],
    faults: &mut FirstFault,
) -> Result<(), AllocError>
    requires { are_counted preds funcs items.now ≡ true }
    ensures { OnOk result (faults.new ≡ least faults.old (types.given_again [] (items_of items.now))) }
{
    let mut signs = GroundMap::new(alloc, preds)?;
    let mut values = GroundMap::new(alloc, funcs)?;
    for item in items {
        judge_item(alloc, &mut signs, &mut values, item, faults)?;
    }
    Ok(())
}

/// The pass over the types of a problem, with the items that its initial state comes to.
pub fn judge_problem_types(
    alloc: Global,
    known: &Known,
    problem: &ProblemAst,
    items: &[Item],
    faults: &mut FirstFault,
) -> Result<(), AllocError>
    requires typed { AreTyped (declared_of known.now) }
    requires counted { are_counted (length known.now.preds.now) (length known.now.funcs.now) items.now ≡ true }
    ensures { OnOk result (faults.new ≡ least faults.old (types.problem_faults (declared_of known.now) problem.now (items_of items.now))) }
{
    judge_init(alloc, known, problem.init.as_slice(), faults);
    judge_given(alloc, known.preds.len(), known.funcs.len(), items, faults)?;
    judge_conditions(alloc, known, problem.goal.as_slice(), faults);
    Ok(())
}
