//! A rollable action that is repeated: whether its comparisons hold at each repetition. Begin with `holds_rolled`.
ghost use Rattle.std.specs.Prelude.{◌≡◌, ◌↔◌, ℕ, ◌<◌, true, IsTrue, length, pos};
ghost use Rattle.std.specs.List.{AllByRecursion};
ghost use Rattle.rational.specs.Fraction.{whole};
ghost use Rattle.frac128.specs.Operations.{Answers};
ghost use Rattle.lin.specs.Linear.{AreBelow, point_of};
ghost use Rattle.lin.specs.Operations.{AnswersInOrder};
ghost use Rattle.task_core.specs.State.{ComparesToZero};
ghost use Rattle.task_core.specs.Step.{is_rollable};
ghost use Rattle.pattern.specs.Rolled as rolled;

use frac128::{Frac, Op, Wide};
use lin::{Cmp, Lin};
use task_core::GAction;

fn one() -> Frac
    ensures { result ≡ rolled.one }
{
    Frac::ratio(1, 1)
}

fn zero() -> Frac
    ensures { result ≡ whole (pos 0) }
{
    Frac::ratio(0, 1)
}

/// How many repetitions there are before the last.
fn before_last(count: &Frac) -> Result<Frac, Wide>
    ensures { Answers Op.Sub count.now rolled.one result }
{
    count.sub(&one())
}

/// What is so far, and what an increment by this amount adds before the last of so many repetitions.
fn grow(so_far: &Frac, amount: &Frac, count: &Frac) -> Result<Frac, Wide>
    ensures { AnswersInOrder (rolled.growth_ops count.now so_far.now amount.now) (rolled.growth count.now so_far.now amount.now) result }
{
    let before = before_last(count)?;
    let growth = amount.mul(&before)?;
    so_far.add(&growth)
}

/// The same where the increment is one of the function.
fn grow_function(func: u64, so_far: &Frac, inc: &(u64, Frac), count: &Frac) -> Result<Frac, Wide>
    ensures { AnswersInOrder (rolled.function_ops count.now func so_far.now inc.now) (rolled.function_growth count.now func so_far.now inc.now) result }
{
    if inc.0 == func {
        grow(so_far, &inc.1, count)
    } else {
        Ok(*so_far)
    }
}

/// The value of a function before the last of so many repetitions.
fn last_value(incs: &[(u64, Frac)], func: u64, old: &Frac, count: &Frac) -> Result<Frac, Wide>
    ensures { AnswersInOrder (rolled.last_ops incs.now count.now func old.now) (rolled.last_value incs.now count.now func old.now) result }
{
    let mut value = *old;
    for inc in incs {
        value = grow_function(func, &value, inc, count)?;
    }
    Ok(value)
}

/// What is so far, and a term before the last repetition.
fn plus_term(
    incs: &[(u64, Frac)],
    count: &Frac,
    values: &[Frac],
    so_far: &Frac,
    term: &(u64, Frac),
) -> Result<Frac, Wide>
    requires { term.now.0 < length values.now }
    ensures { AnswersInOrder (rolled.term_ops incs.now count.now (point_of values.now) so_far.now term.now) (rolled.plus_term incs.now count.now (point_of values.now) so_far.now term.now) result }
{
    let value = last_value(incs, term.0, &values[term.0 as usize], count)?;
    let product = term.1.mul(&value)?;
    so_far.add(&product)
}

/// The value of an expression before the last repetition.
fn value_at_last(incs: &[(u64, Frac)], count: &Frac, values: &[Frac], l: &Lin) -> Result<Frac, Wide>
    requires { AreBelow (length values.now) l.now.terms }
    ensures { AnswersInOrder (rolled.value_ops incs.now count.now (point_of values.now) l.now) (rolled.value_at_last incs.now count.now (point_of values.now) l.now) result }
{
    let mut sum = l.constant();
    for i in 0..l.terms() {
        let term = l.term(i);
        sum = plus_term(incs, count, values, &sum, &term)?;
    }
    Ok(sum)
}

/// Whether a value compares so with 0.
fn compares(cmp: Cmp, value: &Frac) -> bool
    ensures { IsTrue result ↔ ComparesToZero cmp value.now }
{
    let order = value.cmp(&zero());
    match cmp {
        Cmp::Le => order.is_le(),
        Cmp::Lt => order.is_lt(),
        Cmp::Eq => order.is_eq(),
    }
}

/// Whether a comparison holds at the first and at the last repetition.
fn holds_at_both(
    incs: &[(u64, Frac)],
    count: &Frac,
    values: &[Frac],
    comparison: &(Lin, Cmp),
) -> Result<bool, Wide>
    requires { AreBelow (length values.now) comparison.now.0.terms }
    ensures { rolled.Tests (rolled.comparison_ops incs.now count.now (point_of values.now) comparison.now) (rolled.HoldsAtBoth incs.now count.now (point_of values.now) comparison.now) result }
{
    let first = comparison.0.value(values)?;
    if !compares(comparison.1, &first) {
        return Ok(false);
    }
    let last = value_at_last(incs, count, values, &comparison.0)?;
    Ok(compares(comparison.1, &last))
}

/// Whether all do.
fn all_hold_at_both(
    incs: &[(u64, Frac)],
    count: &Frac,
    values: &[Frac],
    comparisons: &[(Lin, Cmp)],
) -> Result<bool, Wide>
    requires { AllByRecursion (λ c. AreBelow (length values.now) c.0.terms) comparisons.now }
    ensures { rolled.Tests (rolled.rolled_ops incs.now count.now (point_of values.now) comparisons.now) (AllByRecursion (rolled.HoldsAtBoth incs.now count.now (point_of values.now)) comparisons.now) result }
{
    for comparison in comparisons {
        if !holds_at_both(incs, count, values, comparison)? {
            return Ok(false);
        }
    }
    Ok(true)
}

/// Whether the comparisons of a rollable action hold at each of so many repetitions, where the functions have these values
/// before the first. They do where they hold at the first and at the last, and nothing else is tested. It takes no memory.
///
/// The count is whole and at least 1, and there is a value for each function that a comparison reads. An operation that
/// passes 128 bits is one of evaluating each comparison in turn, at the first repetition and then at the last. There a
/// function with the increment q has the value made by `sub count 1`, `mul` of q and that, and `add` of the value and the
/// product.
pub fn holds_rolled(a: &GAction, values: &[Frac], count: &Frac) -> Result<bool, Wide>
    requires rollable { is_rollable a.now ≡ true }
    requires valued { AllByRecursion (λ c. AreBelow (length values.now) c.0.terms) a.now.cmps }
    requires count { (n : ℕ) × (0 < n) × (count.now ≡ whole (pos n)) }
    ensures { (n : ℕ) → count.now ≡ whole (pos n) → rolled.Tests (rolled.rolled_ops a.now.incs count.now (point_of values.now) a.now.cmps) (rolled.HoldsEachTime a.now (point_of values.now) n) result }
{
    all_hold_at_both(a.incs.as_slice(), count, values, a.cmps.as_slice())
}
