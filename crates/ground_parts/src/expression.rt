//! Expressions, made from the inside out. Begin with `part_of`; `meet` calls itself on the parts of an expression.
ghost use Rattle.std.specs.Prelude.{◌≡◌, Some, map};
ghost use Rattle.plan_step.specs.Met.{and_then, found};
ghost use Rattle.ground_parts.specs.inside.Giving.{Gives};
ghost use Rattle.lin.specs.Operations.{AnswersInMemory};
ghost use Rattle.ground_action.specs.Work.{work_of};
ghost use Rattle.ground_parts.specs.Forms.{setting_in, part_made};
ghost use Rattle.ground_parts.specs.inside.Parts.{part_met, negative_form, joined, folded, unit_of};

use crate::call::call;
use crate::given::Grounding;
use crate::joint::{Joint, join};
use crate::part::Part;
use frac128::Frac;
use lin::LinFail;
use pddl_task::Expr;
use std::alloc::Global;

/// What a sum or a product of no parts is.
fn unit(joint: Joint) -> Option<Frac>
    ensures { result ≡ Some (unit_of joint) }
{
    match joint {
        Joint::Plus | Joint::Minus => Frac::whole(0),
        Joint::Times | Joint::Over => Frac::whole(1),
    }
}

fn empty(joint: Joint) -> Option<Part>
    ensures { result ≡ Some (Part.Constant (unit_of joint)) }
{
    match unit(joint) {
        Some(x) => Some(Part::Constant(x)),
        None => None,
    }
}

fn negated(part: Part) -> Result<Option<Part>, LinFail>
    ensures { Gives (found (negative_form part)) result }
{
    Ok(Some(part.neg()?))
}

/// Two expressions, the left one first.
#[cycle(expressions)]
fn meet_both(
    alloc: Global,
    given: &Grounding,
    args: &[u32],
    joint: Joint,
    left: &Expr,
    right: &Expr,
) -> Result<Option<Part>, LinFail>
    ensures { Gives (and_then (part_met (setting_in given.now) args.now left.now) (λ p. and_then (part_met (setting_in given.now) args.now right.now) (joined joint p))) result }
{
    let Some(left) = meet(alloc, given, args, left)? else {
        return Ok(None);
    };
    let Some(right) = meet(alloc, given, args, right)? else {
        return Ok(None);
    };
    join(alloc, joint, &left, &right)
}

/// The parts, folded from the left.
#[cycle(expressions)]
fn meet_all(
    alloc: Global,
    given: &Grounding,
    args: &[u32],
    joint: Joint,
    parts: &[Expr],
) -> Result<Option<Part>, LinFail>
    ensures { Gives (folded joint (map (part_met (setting_in given.now) args.now) parts.now)) result }
{
    let [first, more @ ..] = parts else {
        return Ok(empty(joint));
    };
    let Some(mut so_far) = meet(alloc, given, args, first)? else {
        return Ok(None);
    };
    for expr in more {
        let Some(next) = meet(alloc, given, args, expr)? else {
            return Ok(None);
        };
        let Some(joined) = join(alloc, joint, &so_far, &next)? else {
            return Ok(None);
        };
        so_far = joined;
    }
    Ok(Some(so_far))
}

#[cycle(expressions)]
fn meet_negative(
    alloc: Global,
    given: &Grounding,
    args: &[u32],
    expr: &Expr,
) -> Result<Option<Part>, LinFail>
    ensures { Gives (and_then (part_met (setting_in given.now) args.now expr.now) (λ p. found (negative_form p))) result }
{
    let Some(part) = meet(alloc, given, args, expr)? else {
        return Ok(None);
    };
    negated(part)
}

#[cycle(expressions)]
fn meet(
    alloc: Global,
    given: &Grounding,
    args: &[u32],
    expr: &Expr,
) -> Result<Option<Part>, LinFail>
    ensures { Gives (part_met (setting_in given.now) args.now expr.now) result }
{
    match expr {
        Expr::Num(n) => Ok(Some(Part::Constant(*n))),
        Expr::Call { func, args: terms } => call(alloc, given, args, *func, terms.as_slice()),
        Expr::Add(parts) => meet_all(alloc, given, args, Joint::Plus, parts.as_slice()),
        Expr::Mul(parts) => meet_all(alloc, given, args, Joint::Times, parts.as_slice()),
        Expr::Neg(part) => meet_negative(alloc, given, args, part.get()),
        Expr::Sub(left, right) => {
            meet_both(alloc, given, args, Joint::Minus, left.get(), right.get())
        }
        Expr::Div(left, right) => {
            meet_both(alloc, given, args, Joint::Over, left.get(), right.get())
        }
    }
}

/// What the expression of an instance with these arguments comes to, or `None` where it has no value in any state or isn't
/// linear.
pub fn part_of(
    alloc: Global,
    given: &Grounding,
    args: &[u32],
    expr: &Expr,
) -> Result<Option<Part>, LinFail>
    ensures { AnswersInMemory (work_of (setting_in given.now) args.now expr.now).ops (part_made (work_of (setting_in given.now) args.now expr.now).outcome) result }
{
    meet(alloc, given, args, expr)
}
