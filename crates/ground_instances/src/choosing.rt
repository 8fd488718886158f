//! The next object that can follow some arguments, by a static literal that binds it.
ghost use Rattle.std.specs.Prelude.{◌≡◌, ◌++◌, ◌+◌, ◌<◌, true, false, length, take, drop, IfOk, IfSome, MatchOption};
ghost use Rattle.std.specs.List.{list_all};
ghost use Rattle.pddl_task.specs.Task.{is_changing_pred};
ghost use Rattle.pddl_task.specs.declared.condition.Cond.TheVariants as leaf;
ghost use Rattle.pddl_task.specs.Numbers.{counts_of, is_condition};
ghost use Rattle.plan_step.specs.Meaning.{objects_of};
ghost use Rattle.ground_instances.specs.Index.{IsRising, IsIndexOf};
ghost use Rattle.ground_instances.specs.inside.Open.{met_so_far};
ghost use Rattle.ground_instances.specs.inside.Open as opened;
ghost use Rattle.ground_instances.specs.inside.Places.{IsBinding, IsFirstFrom, AllBelow, IsLeast, NoneAmong, IsChoice};

use crate::index::FactIndex;
use crate::meeting::{are_bound, objects};
use pddl_task::{Cond, Task, Term};
use sqlite_items::{Items, at};
use std::alloc::{AllocError, Global};

/// What a condition says about the next argument.
pub(crate) enum Choice {
    Unbound,
    Nothing,
    Next(u32),
}

fn is_param(term: Term, number: usize) -> bool
    ensures { result ≡ opened.is_param number term }
{
    match term {
        Term::Param(p) => p as usize == number,
        Term::Object(_) => false,
    }
}

/// The place at which the terms have the next argument, where all other terms are bound.
fn binding_place(count: usize, terms: &[Term]) -> Option<usize>
    ensures { IfSome result (λ place. IsBinding count terms.now place) }
{
    for (place, term) in terms.iter().enumerate() {
        if is_param(*term, count)
            && are_bound(count, &terms[..place])
            && are_bound(count, &terms[place + 1..])
        {
            return Some(place);
        }
    }
    None
}

/// The objects of all terms but the one at a place.
fn objects_around(
    alloc: Global,
    args: &[u32],
    terms: &[Term],
    place: usize,
) -> Result<Items<u32>, AllocError>
    requires { place < length terms.now }
    ensures { IfOk result (λ around. around ≡ objects_of args.now (take place terms.now) ++ objects_of args.now (drop (place + 1) terms.now)) }
{
    let mut around = objects(alloc, args, &terms[..place])?;
    around.append(objects(alloc, args, &terms[place + 1..])?)?;
    Ok(around)
}

/// The least object from one on, of objects that rise.
fn first_from(objects: &[u32], low: u64) -> Option<u32>
    requires { IsRising objects.now }
    ensures { MatchOption result (AllBelow objects.now low) (IsFirstFrom objects.now low) }
{
    if low > u32::MAX as u64 {
        return None;
    }
    match objects.binary_search(&(low as u32)) {
        Ok(_) => Some(low as u32),
        Err(place) => at(objects, place).copied(),
    }
}

/// The least object from one on and below another, of objects that rise.
fn least(objects: &[u32], low: u64, high: u32) -> Option<u32>
    requires { IsRising objects.now }
    ensures { MatchOption result (NoneAmong objects.now low high) (IsLeast objects.now low high) }
{
    let object = first_from(objects, low)?;
    if object < high { Some(object) } else { None }
}

/// The next object, from one on, by a static literal that has the next argument at the place.
fn choose_at(
    alloc: Global,
    task: &Task,
    facts: &FactIndex,
    args: &[u32],
    pred: u32,
    terms: &[Term],
    place: usize,
    low: u64,
) -> Result<Choice, AllocError>
    requires index { IsIndexOf facts.now task.now.facts }
    requires fixed { is_changing_pred task.now.actions pred ≡ false }
    requires binding { IsBinding (length args.now) terms.now place }
    ensures { IfOk result (λ choice. IsChoice (length task.now.objects) (λ more. met_so_far task.now more (leaf.Lit true pred terms.now)) args.now low choice) }
{
    let around = objects_around(alloc, args, terms, place)?;
    let objects = facts.objects(place, pred, around.as_slice());
    match least(objects, low, task.objects()) {
        Some(object) => Ok(Choice::Next(object)),
        None => Ok(Choice::Nothing),
    }
}

/// The next object, from one on, by one condition.
pub(crate) fn choose(
    alloc: Global,
    task: &Task,
    facts: &FactIndex,
    params: u64,
    args: &[u32],
    cond: &Cond,
    low: u64,
) -> Result<Choice, AllocError>
    requires index { IsIndexOf facts.now task.now.facts }
    requires numbered { is_condition (counts_of task.now) params cond.now ≡ true }
    ensures { IfOk result (λ choice. IsChoice (length task.now.objects) (λ more. met_so_far task.now more cond.now) args.now low choice) }
{
    let Cond::Lit {
        pos: true,
        pred,
        args: terms,
    } = cond
    else {
        return Ok(Choice::Unbound);
    };
    if task.changing_pred(*pred) {
        return Ok(Choice::Unbound);
    }
    let Some(place) = binding_place(args.len(), terms.as_slice()) else {
        return Ok(Choice::Unbound);
    };
    choose_at(
        alloc,
        task,
        facts,
        args,
        *pred,
        terms.as_slice(),
        place,
        low,
    )
}
