//! The part that a call of a function is. Begin with `call`.
ghost use Rattle.std.specs.Prelude.{◌≡◌};
ghost use Rattle.plan_step.specs.Meaning.{objects_of};
ghost use Rattle.ground_numbers.specs.Numbers.{named, same, number_in};
ghost use Rattle.ground_parts.specs.inside.Giving.{Gives};
ghost use Rattle.ground_parts.specs.Forms.{setting_in};
ghost use Rattle.ground_parts.specs.inside.Parts.{call_met, given_form};

use crate::changing::changes_func;
use crate::given::Grounding;
use crate::part::Part;
use crate::terms::objects;
use frac128::Frac;
use ground_numbers::Numbers;
use lin::{Lin, LinFail};
use pddl_task::Term;
use std::alloc::Global;

/// The number of a ground thing; one that the table hasn't gets the next one.
pub fn number(table: &Numbers, symbol: u32, args: &[u32]) -> u64
    ensures { result ≡ number_in same table.now (named symbol args.now) }
{
    match table.number(symbol, args) {
        Some(n) => n,
        None => table.len(),
    }
}

/// A constant, where a value is given.
fn constant(value: Option<Frac>) -> Result<Option<Part>, LinFail>
    ensures { Gives (given_form value) result }
{
    match value {
        Some(x) => Ok(Some(Part::Constant(x))),
        None => Ok(None),
    }
}

/// A changing function is a variable; a static one has its value at the start.
fn call_at(
    alloc: Global,
    given: &Grounding,
    func: u32,
    args: &[u32],
) -> Result<Option<Part>, LinFail>
    ensures { Gives (call_met (setting_in given.now) (named func args.now)) result }
{
    if !changes_func(given.task, func) {
        return constant(given.start.value(func, args));
    }
    let number = number(given.funcs, func, args);
    Ok(Some(Part::Linear(Lin::var(alloc, number)?)))
}

pub(crate) fn call(
    alloc: Global,
    given: &Grounding,
    args: &[u32],
    func: u32,
    terms: &[Term],
) -> Result<Option<Part>, LinFail>
    ensures { Gives (call_met (setting_in given.now) (named func (objects_of args.now terms.now))) result }
{
    let objects = objects(alloc, args, terms)?;
    call_at(alloc, given, func, objects.as_slice())
}
