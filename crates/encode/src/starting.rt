//! The symbolic state at the start: atoms are true or false, and functions are constants. Begin with `symbols_at_start`.
ghost use Rattle.std.specs.Prelude.{◌≡◌, map, IfOk};
ghost use Rattle.encode.specs.inside.Starting.{constant_truth, constant_value, AreAtStart};

use encode_rows::{Symbols, Truth};
use frac128::Frac;
use lin::Lin;
use sqlite_items::Items;
use std::alloc::{AllocError, Global};
use task_core::GroundTask;

fn constant_truth(is_true: bool) -> Truth
    ensures { result ≡ constant_truth is_true }
{
    if is_true { Truth::Yes } else { Truth::No }
}

// 0 where there is no value.
fn constant_value(alloc: Global, value: Option<Frac>) -> Lin
    ensures { result ≡ constant_value value }
{
    match value {
        Some(x) => Lin::fixed(alloc, x),
        None => Lin::fixed(alloc, Frac::ratio(0, 1)),
    }
}

fn truths_at_start(alloc: Global, task: &GroundTask) -> Result<Items<Truth>, AllocError>
    ensures { IfOk result (λ ts. ts ≡ map constant_truth task.now.atoms) }
{
    let mut truths = Items::new(alloc);
    for p in 0..task.atoms() {
        truths.push(constant_truth(task.atom_at_start(p)))?;
    }
    Ok(truths)
}

fn values_at_start(alloc: Global, task: &GroundTask) -> Result<Items<Lin>, AllocError>
    ensures { IfOk result (λ vs. vs ≡ map constant_value task.now.funcs) }
{
    let mut values = Items::new(alloc);
    for f in 0..task.funcs() {
        values.push(constant_value(alloc, task.value_at_start(f)))?;
    }
    Ok(values)
}

/// The symbolic state at the start of the task.
pub(crate) fn symbols_at_start(alloc: Global, task: &GroundTask) -> Result<Symbols, AllocError>
    ensures { IfOk result (AreAtStart task.now) }
{
    let truths = truths_at_start(alloc, task)?;
    let values = values_at_start(alloc, task)?;
    Ok(Symbols { truths, values })
}
