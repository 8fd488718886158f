//! The counts that a point gives to the occurrences: the value of a count, or 1 and 0 where a truth variable is true and false. The
//! numbers of these variables are known by making the formula once more. Begin with `counts_of`.
ghost use Rattle.std.specs.Prelude.{◌≡◌, ◌≤◌, ◌<◌, ◌++◌, ◌∷◌, [], length, pos, IfOk, OnOk, if◌then◌else◌};
ghost use Rattle.rational.specs.Fraction.{whole};
ghost use Rattle.std.specs.List.{All};
ghost use Rattle.lin.specs.Linear.{point_of};
ghost use Rattle.lin.specs.declared.failure.LinFail.TheVariants as fail;
ghost use Rattle.pattern.specs.Pattern.{IsPattern};
ghost use Rattle.encode_laws.specs.Encoding.{copies, counts_at};
ghost use Rattle.encode_laws.specs.Refusals.{operations_of, AllNamedFit};
ghost use Rattle.encode.specs.inside.Occurring.{HasNext};
ghost use Rattle.encode.specs.inside.Copying.{IsSizedFor, actions_of};
ghost use Rattle.encode.specs.inside.Counting.{truth_count, count_by, ReadsInTurn};

use crate::occurring::occur;
use crate::starting::symbols_at_start;
use encode_rows::Symbols;
use formula::{Formula, Point};
use frac128::Frac;
use lin::LinFail;
use pattern::Pattern;
use std::alloc::{AllocError, Global};
use task_core::{GAction, GroundTask};

fn value_at(p: &Point, c: u64) -> Frac
    ensures { result ≡ point_of p.now.values c }
{
    match p.values.get(c as usize).copied() {
        Some(value) => value,
        None => Frac::ratio(0, 1),
    }
}

fn one_or_zero(is_true: bool) -> Frac
    ensures { result ≡ (if is_true then whole (pos 1) else whole (pos 0)) }
{
    if is_true {
        Frac::ratio(1, 1)
    } else {
        Frac::ratio(0, 1)
    }
}

fn truth_count(p: &Point, b: u64) -> Frac
    ensures { result ≡ truth_count p.now b }
{
    match p.truth.get(b as usize).copied() {
        Some(is_true) => one_or_zero(is_true),
        None => Frac::ratio(0, 1),
    }
}

// The count of an occurrence whose count variable, or whose truth variable, has this number.
fn count_by(p: &Point, a: &GAction, c: u64, b: u64) -> Frac
    ensures { result ≡ count_by p.now a.now c b }
{
    if a.incs.is_empty() {
        truth_count(p, b)
    } else {
        value_at(p, c)
    }
}

// The action of each occurrence.
fn all_places(alloc: Global, places: &[u32], n: u32) -> Result<Vec<u32>, AllocError>
    ensures { IfOk result (λ v. v.items ≡ copies n places.now) }
{
    let mut all = Vec::new(alloc);
    for copy in 0..n {
        let _copy = copy;
        all.extend_from_slice(places)?;
    }
    Ok(all)
}

fn push(counts: &mut Vec<Frac>, count: Frac) -> Result<(), AllocError>
    ensures { OnOk result (counts.new.items ≡ counts.old.items ++ count ∷ []) }
{
    counts.push(count)?;
    Ok(())
}

// Makes the occurrences, and reads the count of each.
fn read_in_turn(
    alloc: Global,
    formula: &mut Formula,
    symbols: &mut Symbols,
    task: &GroundTask,
    places: &[u32],
    p: &Point,
    counts: &mut Vec<Frac>,
) -> Result<(), LinFail>
    requires next { HasNext formula.old symbols.old }
    requires sized { IsSizedFor task.now symbols.old }
    requires places { All (λ q. q < length task.now.actions) places.now }
    ensures { ReadsInTurn p.now (actions_of task.now places.now) formula.old symbols.old counts.old.items formula.new counts.new.items result }
{
    let actions = task.actions();
    for place in places {
        let a = &actions[*place as usize];
        let c = formula.vars();
        let b = formula.booleans();
        let count = count_by(p, a, c, b);
        push(counts, count)?;
        occur(alloc, formula, symbols, a)?;
    }
    Ok(())
}

fn want_of_memory(refusal: LinFail) -> AllocError
    requires { refusal ≡ fail.Memory }
{
    match refusal {
        LinFail::Memory => AllocError,
        LinFail::Wide(_) => unreachable!(),
    }
}

/// The count that the point gives to each occurrence in the formula that `encode` makes.
pub fn counts_of(
    alloc: Global,
    task: &GroundTask,
    pattern: &Pattern,
    n: u32,
    p: &Point,
) -> Result<Vec<Frac>, AllocError>
    requires pattern { IsPattern task.now pattern.now }
    requires copies { n ≤ 1000 }
    requires encoded { AllNamedFit (operations_of task.now pattern.now n) }
    ensures { IfOk result (λ v. v.items ≡ counts_at task.now pattern.now n p.now) }
{
    let places = all_places(alloc, pattern.places(), n)?;
    let mut symbols = symbols_at_start(alloc, task)?;
    let mut formula = Formula::new(alloc);
    let mut counts = Vec::new(alloc);
    let read = read_in_turn(
        alloc,
        &mut formula,
        &mut symbols,
        task,
        places.as_slice(),
        p,
        &mut counts,
    );
    match read {
        Ok(()) => Ok(counts),
        Err(refusal) => Err(want_of_memory(refusal)),
    }
}
