//! The value of an expression in a state. Begin with `evaluate`, which calls itself on the parts of an expression; it
//! takes no memory.
ghost use Rattle.std.specs.Prelude.{◌≡◌, ◌≢◌, Some, map};
ghost use Rattle.rational.specs.Fraction.{neg_ℚ};
ghost use Rattle.plan_step.specs.Met.{met_of, met_of_value, operated, found, and_then};
ghost use Rattle.plan_step.specs.Held.{state_of};
ghost use Rattle.plan_step.specs.Meaning.{is_zero_ℤ};
ghost use Rattle.plan_step.specs.Evaluation as evaluation;

use crate::reading::call;
use crate::state::State;
use frac128::{Frac, Op, Wide};
use pddl_task::Expr;

pub(crate) fn is_zero(x: &Frac) -> bool
    ensures { result ≡ is_zero_ℤ x.now.num }
{
    x.num() == 0
}

/// An operation other than a division.
pub(crate) fn operate(op: Op, x: &Frac, y: &Frac) -> Result<Frac, Wide>
    requires { op ≢ Op.Div }
    ensures { met_of_value result ≡ operated op x.now y.now }
{
    match op {
        Op::Add => x.add(y),
        Op::Sub => x.sub(y),
        Op::Mul => x.mul(y),
        Op::Div => unreachable!(),
    }
}

/// A division by 0 has no value.
pub(crate) fn divide(x: &Frac, y: &Frac) -> Result<Option<Frac>, Wide>
    ensures { met_of result ≡ evaluation.divided x.now y.now }
{
    if is_zero(y) {
        return Ok(None);
    }
    Ok(Some(x.div(y)?))
}

/// An operation folded over no parts.
fn empty_fold(op: Op) -> Option<Frac>
    ensures { result ≡ Some (evaluation.empty_fold op) }
{
    match op {
        Op::Add | Op::Sub => Frac::whole(0),
        Op::Mul | Op::Div => Frac::whole(1),
    }
}

fn subtract(x: &Frac, y: &Frac) -> Result<Option<Frac>, Wide>
    ensures { met_of result ≡ operated Op.Sub x.now y.now }
{
    Ok(Some(operate(Op::Sub, x, y)?))
}

/// The values of two expressions, the left one first.
#[cycle(evaluation)]
pub(crate) fn evaluate_both(
    state: &State,
    args: &[u32],
    left: &Expr,
    right: &Expr,
) -> Result<Option<(Frac, Frac)>, Wide>
    ensures { met_of result ≡ and_then (evaluation.evaluated (state_of state.now) args.now left.now) (λ x. and_then (evaluation.evaluated (state_of state.now) args.now right.now) (λ y. found (x, y))) }
{
    let Some(x) = evaluate(state, args, left)? else {
        return Ok(None);
    };
    let Some(y) = evaluate(state, args, right)? else {
        return Ok(None);
    };
    Ok(Some((x, y)))
}

/// The operation folded from the left over the values of the parts.
#[cycle(evaluation)]
fn evaluate_fold(op: Op, state: &State, args: &[u32], parts: &[Expr]) -> Result<Option<Frac>, Wide>
    requires { op ≢ Op.Div }
    ensures { met_of result ≡ evaluation.folded op (map (evaluation.evaluated (state_of state.now) args.now) parts.now) }
{
    let [first, more @ ..] = parts else {
        return Ok(empty_fold(op));
    };
    let Some(mut x) = evaluate(state, args, first)? else {
        return Ok(None);
    };
    for part in more {
        let Some(y) = evaluate(state, args, part)? else {
            return Ok(None);
        };
        x = operate(op, &x, &y)?;
    }
    Ok(Some(x))
}

#[cycle(evaluation)]
fn evaluate_negative(state: &State, args: &[u32], part: &Expr) -> Result<Option<Frac>, Wide>
    ensures { met_of result ≡ and_then (evaluation.evaluated (state_of state.now) args.now part.now) (λ x. found (neg_ℚ x)) }
{
    let Some(x) = evaluate(state, args, part)? else {
        return Ok(None);
    };
    Ok(Some(x.neg()))
}

#[cycle(evaluation)]
fn evaluate_difference(
    state: &State,
    args: &[u32],
    left: &Expr,
    right: &Expr,
) -> Result<Option<Frac>, Wide>
    ensures { met_of result ≡ and_then (evaluation.evaluated (state_of state.now) args.now left.now) (λ x. and_then (evaluation.evaluated (state_of state.now) args.now right.now) (operated Op.Sub x)) }
{
    let Some((x, y)) = evaluate_both(state, args, left, right)? else {
        return Ok(None);
    };
    subtract(&x, &y)
}

#[cycle(evaluation)]
fn evaluate_quotient(
    state: &State,
    args: &[u32],
    left: &Expr,
    right: &Expr,
) -> Result<Option<Frac>, Wide>
    ensures { met_of result ≡ and_then (evaluation.evaluated (state_of state.now) args.now left.now) (λ x. and_then (evaluation.evaluated (state_of state.now) args.now right.now) (evaluation.divided x)) }
{
    let Some((x, y)) = evaluate_both(state, args, left, right)? else {
        return Ok(None);
    };
    divide(&x, &y)
}

/// The value, or `None` where some part has none.
#[cycle(evaluation)]
pub fn evaluate(state: &State, args: &[u32], expr: &Expr) -> Result<Option<Frac>, Wide>
    ensures { met_of result ≡ evaluation.evaluated (state_of state.now) args.now expr.now }
{
    match expr {
        Expr::Num(n) => Ok(Some(*n)),
        Expr::Call { func, args: terms } => Ok(call(state, args, *func, terms.as_slice())),
        Expr::Add(parts) => evaluate_fold(Op::Add, state, args, parts.as_slice()),
        Expr::Mul(parts) => evaluate_fold(Op::Mul, state, args, parts.as_slice()),
        Expr::Neg(part) => evaluate_negative(state, args, part.get()),
        Expr::Sub(left, right) => evaluate_difference(state, args, left.get(), right.get()),
        Expr::Div(left, right) => evaluate_quotient(state, args, left.get(), right.get()),
    }
}
