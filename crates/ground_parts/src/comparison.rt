//! Comparisons of two parts. Begin with `compare`.
ghost use Rattle.std.specs.Prelude.{◌≡◌, IfOk};
ghost use Rattle.lin.specs.Linear.{add};
ghost use Rattle.lin.specs.Made.{add_ops};
ghost use Rattle.lin.specs.Operations.{AnswersInMemory};
ghost use Rattle.plan_step.specs.Order.{related};
ghost use Rattle.ground_action.specs.Parts as spec;
ghost use Rattle.ground_action.specs.Leaves.{compared_parts};
ghost use Rattle.ground_action.specs.Work.{parts_ops};
ghost use Rattle.ground_parts.specs.Forms.{form_of, comparison_made};
ghost use Rattle.ground_parts.specs.inside.Parts.{linear_form, negative_form};
ghost use Rattle.ground_parts.specs.inside.Comparing.{difference_ops, difference_form, sides_ops, sides_form, compared_ops, compared_form};

use crate::part::Part;
use frac128::Frac;
use lin::{Cmp, Lin, LinFail};
use pddl_task::Rel;
use std::alloc::{AllocError, Global};

/// A comparison of two constants, which holds or doesn't, or what is left of another: the expression, and how its value
/// compares with 0.
#[derive(Debug, Drop)]
pub enum Compared {
    Settled(bool),
    Left(Lin, Cmp),
}

/// Whether two fractions are related so.
pub fn is_related(rel: Rel, x: &Frac, y: &Frac) -> bool
    ensures { result ≡ related rel x.now y.now }
{
    let order = x.cmp(y);
    match rel {
        Rel::Lt => order.is_lt(),
        Rel::Le => order.is_le(),
        Rel::Eq => order.is_eq(),
        Rel::Ge => order.is_ge(),
        Rel::Gt => order.is_gt(),
    }
}

/// The part as an expression of its own.
fn linear(alloc: Global, part: &Part) -> Result<Lin, AllocError>
    ensures { IfOk result (λ l. l ≡ linear_form part.now) }
{
    match part {
        Part::Constant(a) => Ok(Lin::fixed(alloc, *a)),
        Part::Linear(l) => l.try_clone(),
    }
}

/// The sum of the first and the negation of the second.
fn difference(alloc: Global, left: &Part, right: &Part) -> Result<Lin, LinFail>
    ensures { AnswersInMemory (difference_ops left.now right.now) (difference_form left.now right.now) result }
{
    let negative = right.neg()?;
    let right = linear(alloc, &negative)?;
    let left = linear(alloc, left)?;
    left.add(&right)
}

fn against(alloc: Global, left: &Part, right: &Part, cmp: Cmp) -> Result<Compared, LinFail>
    ensures { AnswersInMemory (difference_ops left.now right.now) (Compared.Left (difference_form left.now right.now) cmp) result }
{
    Ok(Compared::Left(difference(alloc, left, right)?, cmp))
}

/// For `<`, `<=` and `=` left minus right, for `>=` and `>` right minus left.
fn compare_sides(alloc: Global, rel: Rel, left: &Part, right: &Part) -> Result<Compared, LinFail>
    ensures { AnswersInMemory (sides_ops rel left.now right.now) (sides_form rel left.now right.now) result }
{
    match rel {
        Rel::Lt => against(alloc, left, right, Cmp::Lt),
        Rel::Le => against(alloc, left, right, Cmp::Le),
        Rel::Eq => against(alloc, left, right, Cmp::Eq),
        Rel::Ge => against(alloc, right, left, Cmp::Le),
        Rel::Gt => against(alloc, right, left, Cmp::Lt),
    }
}

fn compare_forms(alloc: Global, rel: Rel, left: &Part, right: &Part) -> Result<Compared, LinFail>
    ensures { AnswersInMemory (compared_ops rel left.now right.now) (compared_form rel left.now right.now) result }
{
    match (left, right) {
        (Part::Constant(a), Part::Constant(b)) => Ok(Compared::Settled(is_related(rel, a, b))),
        (Part::Constant(_), Part::Linear(_)) => compare_sides(alloc, rel, left, right),
        (Part::Linear(_), _) => compare_sides(alloc, rel, left, right),
    }
}

/// What is left of a comparison of two parts. Two constants are compared as they are.
pub fn compare(alloc: Global, rel: Rel, left: &Part, right: &Part) -> Result<Compared, LinFail>
    ensures { (p q : spec.Part) → form_of p ≡ left.now → form_of q ≡ right.now
        → AnswersInMemory (parts_ops rel p q) (comparison_made (compared_parts rel p q)) result }
{
    compare_forms(alloc, rel, left, right)
}
