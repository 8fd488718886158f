//! The values of functions behind an occurrence. Begin with `renew`.
ghost use Rattle.std.specs.Prelude.{◌≡◌, ◌<◌, ◌+◌, ◌^◌, ◌∷◌, [], length, slice_set, OnOk};
ghost use Rattle.std.specs.List.{All};
ghost use Rattle.std.specs.List.Sorted.{IsStrictlyIncreasing};
ghost use Rattle.lin.specs.Linear.{Linear, var};
ghost use Rattle.task_core.specs.Task.{numbers};
ghost use Rattle.encode_rows.specs.Growing.{Increments, Grows, SetsVariables, Renews};

use frac128::Frac;
use lin::{Lin, LinFail};
use sqlite_items::Items;
use std::alloc::{AllocError, Global};
use task_core::GAction;

// An increment, made as often as the count c says.
fn increment(
    alloc: Global,
    values: &mut Items<Lin>,
    c: u64,
    inc: &(u64, Frac),
) -> Result<(), LinFail>
    requires { inc.now.0 < length values.old }
    ensures grows { Increments c inc.now values.old values.new result }
    ensures kept { length values.new ≡ length values.old }
{
    let own = Lin::var(alloc, c)?;
    let growth = own.scale(&inc.1)?;
    let grown = values.as_slice()[inc.0 as usize].add(&growth)?;
    values.set(inc.0 as usize, grown);
    Ok(())
}

fn grow(alloc: Global, values: &mut Items<Lin>, c: u64, incs: &[(u64, Frac)]) -> Result<(), LinFail>
    requires within { All (λ q. q.0 < length values.old) incs.now }
    requires once { IsStrictlyIncreasing (numbers incs.now) }
    ensures grows { Grows c incs.now values.old values.new result }
    ensures kept { length values.new ≡ length values.old }
{
    for inc in incs {
        increment(alloc, values, c, inc)?;
    }
    Ok(())
}

// The function's value is a variable.
fn set_variable(
    alloc: Global,
    values: &mut Items<Lin>,
    w: u64,
    function: u64,
) -> Result<(), AllocError>
    requires { function < length values.old }
    ensures made { OnOk result ((own : Linear) × (own ≡ var w) × (values.new ≡ slice_set values.old function own)) }
    ensures kept { length values.new ≡ length values.old }
{
    let own = Lin::var(alloc, w)?;
    values.set(function as usize, own);
    Ok(())
}

// The values of the functions are the variables w, w + 1, ..
fn set_variables(
    alloc: Global,
    values: &mut Items<Lin>,
    w: u64,
    sets: &[(u64, Lin)],
) -> Result<(), AllocError>
    requires within { All (λ s. s.0 < length values.old) sets.now }
    requires once { IsStrictlyIncreasing (numbers sets.now) }
    requires numbered { w + length sets.now < 2 ^ 64 }
    ensures made { OnOk result (SetsVariables w sets.now values.old values.new) }
    ensures kept { length values.new ≡ length values.old }
{
    let mut next = w;
    for set in sets {
        set_variable(alloc, values, next, set.0)?;
        next += 1;
    }
    Ok(())
}

/// The values behind an occurrence of the action with the count c, whose new values have the variables w, w + 1, ..
pub fn renew(
    alloc: Global,
    values: &mut Items<Lin>,
    c: u64,
    w: u64,
    a: &GAction,
) -> Result<(), LinFail>
    requires incs { All (λ q. q.0 < length values.old) a.now.incs }
    requires incs_once { IsStrictlyIncreasing (numbers a.now.incs) }
    requires sets { All (λ s. s.0 < length values.old) a.now.sets }
    requires sets_once { IsStrictlyIncreasing (numbers a.now.sets) }
    requires numbered { w + length a.now.sets < 2 ^ 64 }
    ensures renews { Renews c w a.now values.old values.new result }
    ensures kept { length values.new ≡ length values.old }
{
    grow(alloc, values, c, a.incs.as_slice())?;
    set_variables(alloc, values, w, a.sets.as_slice())?;
    Ok(())
}
