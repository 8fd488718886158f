//! The start of the ground task: truths, values, and the atoms that say whether functions have values.
ghost use Rattle.std.specs.Prelude.{◌≡◌, map, IfOk, OnOk};
ghost use Rattle.plan_step.specs.Held.{state_of};
ghost use Rattle.ground_action.specs.Setting.{value_in};
ghost use Rattle.ground.specs.Grounds.{func_in};
ghost use Rattle.ground.specs.inside.Concluding.{truth_of, IsMarked, AreMarked};

use crate::function::GroundFunc;
use frac128::Frac;
use ground_numbers::{Named, Numbers};
use plan_step::State;
use sqlite_items::Items;
use std::alloc::{AllocError, Global};

/// The truth of each atom.
pub(crate) fn truths(alloc: Global, start: &State, atoms: &Numbers) -> Result<Vec<bool>, AllocError>
    ensures { IfOk result (λ truths. truths.items ≡ map (truth_of (state_of start.now)) atoms.now) }
{
    let mut truths = Vec::new(alloc);
    for number in 0..atoms.len() {
        let atom = atoms.get(number);
        truths.push(start.atom(atom.symbol, atom.args.as_slice()))?;
    }
    Ok(truths)
}

/// The value of each function.
pub(crate) fn values(
    alloc: Global,
    start: &State,
    funcs: &Numbers,
) -> Result<Vec<Option<Frac>>, AllocError>
    ensures { IfOk result (λ values. values.items ≡ map (value_in (state_of start.now)) funcs.now) }
{
    let mut values = Vec::new(alloc);
    for number in 0..funcs.len() {
        let func = funcs.get(number);
        values.push(start.value(func.symbol, func.args.as_slice()))?;
    }
    Ok(values)
}

fn function(alloc: Global, named: &Named) -> Result<GroundFunc, AllocError>
    ensures { IfOk result (λ f. f ≡ func_in named.now) }
{
    let args = Items::from_slice(alloc, named.args.as_slice())?;
    Ok(GroundFunc {
        func: named.symbol,
        args,
    })
}

/// What each function number stands for.
pub(crate) fn functions(alloc: Global, funcs: &Numbers) -> Result<Items<GroundFunc>, AllocError>
    ensures { IfOk result (λ functions. functions ≡ map func_in funcs.now) }
{
    let mut functions = Items::new(alloc);
    for number in 0..funcs.len() {
        functions.push(function(alloc, funcs.get(number))?)?;
    }
    Ok(functions)
}

/// One function more: where it has no value, the next atom says so, and is false.
fn mark_value(
    value: Option<Frac>,
    truths: &mut Vec<bool>,
    marks: &mut Vec<u64>,
) -> Result<(), AllocError>
    ensures { OnOk result (IsMarked truths.old.items truths.new.items marks.old.items marks.new.items value) }
{
    marks.push(truths.len() as u64)?;
    if value.is_none() {
        truths.push(false)?;
    }
    Ok(())
}

/// The atoms that say whether functions have values, by function number; they come behind the other atoms.
pub(crate) fn mark_values(
    alloc: Global,
    values: &[Option<Frac>],
    truths: &mut Vec<bool>,
) -> Result<Vec<u64>, AllocError>
    ensures { IfOk result (λ marks. AreMarked truths.old.items truths.new.items marks.items values.now) }
{
    let mut marks = Vec::new(alloc);
    for value in values {
        mark_value(*value, truths, &mut marks)?;
    }
    Ok(marks)
}
