//! Two parts joined by an operation. Begin with `join`.
ghost use Rattle.std.specs.Prelude.{◌≡◌, ◌≢◌, pos};
ghost use Rattle.rational.specs.Fraction.{◌+ℚ◌, ◌*ℚ◌, inv_ℚ, ◌/ℚ◌};
ghost use Rattle.lin.specs.Linear.{fixed, add, scale};
ghost use Rattle.lin.specs.Made.{add_ops, scale_ops, div_ops};
ghost use Rattle.ground_parts.specs.inside.Giving.{made_by, Gives};
ghost use Rattle.ground_parts.specs.inside.Parts.{plus_met, minus_met, times_met, over_met, joined};

use crate::part::Part;
use frac128::Frac;
use lin::{Lin, LinFail};
use std::alloc::Global;

/// How two parts are joined.
#[derive(Clone, Copy)]
pub(crate) enum Joint {
    Plus,
    Minus,
    Times,
    Over,
}

fn add_constants(a: &Frac, b: &Frac) -> Result<Option<Part>, LinFail>
    ensures { Gives (made_by (add_ops (fixed a.now) (fixed b.now)) (Part.Constant (a.now +ℚ b.now))) result }
{
    Ok(Some(Part::Constant(a.add(b)?)))
}

fn add_linear(l: &Lin, m: &Lin) -> Result<Option<Part>, LinFail>
    ensures { Gives (made_by (add_ops l.now m.now) (Part.Linear (add l.now m.now))) result }
{
    Ok(Some(Part::Linear(l.add(m)?)))
}

fn multiply_constants(a: &Frac, b: &Frac) -> Result<Option<Part>, LinFail>
    ensures { Gives (made_by (scale_ops a.now (fixed b.now)) (Part.Constant (a.now *ℚ b.now))) result }
{
    Ok(Some(Part::Constant(a.mul(b)?)))
}

fn scale_linear(by: &Frac, l: &Lin) -> Result<Option<Part>, LinFail>
    ensures { Gives (made_by (scale_ops by.now l.now) (Part.Linear (scale by.now l.now))) result }
{
    Ok(Some(Part::Linear(l.scale(by)?)))
}

fn divide_constants(a: &Frac, by: &Frac) -> Result<Option<Part>, LinFail>
    requires { by.now.num ≢ pos 0 }
    ensures { Gives (made_by (div_ops by.now (fixed a.now)) (Part.Constant (a.now /ℚ by.now))) result }
{
    Ok(Some(Part::Constant(a.div(by)?)))
}

fn divide_linear(l: &Lin, by: &Frac) -> Result<Option<Part>, LinFail>
    requires { by.now.num ≢ pos 0 }
    ensures { Gives (made_by (div_ops by.now l.now) (Part.Linear (scale (inv_ℚ by.now) l.now))) result }
{
    Ok(Some(Part::Linear(l.div(by)?)))
}

fn plus(alloc: Global, left: &Part, right: &Part) -> Result<Option<Part>, LinFail>
    ensures { Gives (plus_met left.now right.now) result }
{
    match (left, right) {
        (Part::Constant(a), Part::Constant(b)) => add_constants(a, b),
        (Part::Constant(a), Part::Linear(l)) => add_linear(&Lin::fixed(alloc, *a), l),
        (Part::Linear(l), Part::Constant(b)) => add_linear(l, &Lin::fixed(alloc, *b)),
        (Part::Linear(l), Part::Linear(m)) => add_linear(l, m),
    }
}

fn minus(alloc: Global, left: &Part, right: &Part) -> Result<Option<Part>, LinFail>
    ensures { Gives (minus_met left.now right.now) result }
{
    let negative = right.neg()?;
    plus(alloc, left, &negative)
}

/// Of two linear expressions there is no product.
fn times(left: &Part, right: &Part) -> Result<Option<Part>, LinFail>
    ensures { Gives (times_met left.now right.now) result }
{
    match (left, right) {
        (Part::Constant(a), Part::Constant(b)) => multiply_constants(a, b),
        (Part::Constant(a), Part::Linear(l)) => scale_linear(a, l),
        (Part::Linear(l), Part::Constant(b)) => scale_linear(b, l),
        (Part::Linear(_), Part::Linear(_)) => Ok(None),
    }
}

/// Nothing is divided by 0 or by a linear expression.
fn over(left: &Part, right: &Part) -> Result<Option<Part>, LinFail>
    ensures { Gives (over_met left.now right.now) result }
{
    let Part::Constant(by) = right else {
        return Ok(None);
    };
    if by.num() == 0 {
        return Ok(None);
    }
    match left {
        Part::Constant(a) => divide_constants(a, by),
        Part::Linear(l) => divide_linear(l, by),
    }
}

/// The joined part, where there is one.
pub(crate) fn join(
    alloc: Global,
    joint: Joint,
    left: &Part,
    right: &Part,
) -> Result<Option<Part>, LinFail>
    ensures { Gives (joined joint left.now right.now) result }
{
    match joint {
        Joint::Plus => plus(alloc, left, right),
        Joint::Minus => minus(alloc, left, right),
        Joint::Times => times(left, right),
        Joint::Over => over(left, right),
    }
}
