//! Expressions with numbers for names. Begin with `resolve_expression`, which calls itself on the arguments of an
//! operation.
ghost use Rattle.std.specs.Prelude.{◌≡◌, [], ◌∷◌, true, map, length, Some, is_some, IfOk, MatchOption};
ghost use Rattle.std.specs.List.{list_all};
ghost use Rattle.kw_table.specs.Table.{Rises};
ghost use Rattle.pddl_condition.specs.Grammar.{is_expression, is_operation};
ghost use Rattle.pddl_form.specs.Judged.{both, each};
ghost use Rattle.pddl_form.specs.Parts.{pair};
ghost use Rattle.pddl_form.specs.Reading.{Reads};
ghost use Rattle.pddl_form.specs.Sections.{and_then};
ghost use Rattle.typing_uses.specs.Scope.{named, terms_named};
ghost use Rattle.typing_uses.specs.Names.{scope_of};
ghost use Rattle.typing_uses.specs.Expressions as expressions;
ghost use Rattle.typing_uses.specs.Operators.{operator_of, operation_by};

use crate::scope::{Names, find_name, find_terms};
use kw_table::{Table, rows};
use name_table::NameTable;
use pddl_condition::ExprAst;
use pddl_form::{FirstFault, Spot, add, pair};
use pddl_task::{Expr, Term};
use sqlite_items::{Boxed, Items};
use std::alloc::{AllocError, Global};

/// A predicate or a function with its arguments.
pub fn resolve_call(
    alloc: Global,
    table: &NameTable,
    names: &Names,
    name: &Spot,
    args: &[Spot],
    faults: &mut FirstFault,
) -> Result<Option<(u32, Items<Term>)>, AllocError>
    ensures { Reads (both pair (named table.now name.now) (terms_named (scope_of names.now) args.now)) faults.old faults.new result }
{
    let number = find_name(alloc, table, name, faults);
    let args = find_terms(alloc, names, args, faults)?;
    Ok(pair(number, args))
}

/// What an operation does with its arguments.
#[derive(Clone, Copy, Debug, PartialEq, Eq)]
enum Operator {
    Plus,
    Times,
    Minus,
    Over,
}

const OPERATORS: Table<4> = Table {
    words: ["*", "+", "-", "/"],
};

/// The operators stand in byte order.
pub fn operators_rise()
    ensures { Rises (map (λ w. w.now) OPERATORS.words) }
{}

#[tactic(auto, using(crate::proofs::Words::operator_rows))]
fn find_operator(text: &str) -> Operator
    requires { is_some (operator_of text.now) ≡ true }
    ensures { operator_of text.now ≡ Some result }
{
    let table = &OPERATORS;
    rows! {
        table, text.as_bytes();
        "*" => Operator::Times,
        "+" => Operator::Plus,
        "-" => Operator::Minus,
        "/" => Operator::Over;
        else => unreachable!()
    }
}

/// Takes the first argument away.
fn take_first(args: &mut Items<Expr>) -> Option<Expr>
    ensures { MatchOption result ((args.old ≡ []) × (args.new ≡ [])) (λ first. args.old ≡ first ∷ args.new) }
{
    if args.is_empty() {
        return None;
    }
    Some(args.remove(0))
}

/// `-` with one argument or with two.
fn minus(alloc: Global, args: Items<Expr>) -> Result<Expr, AllocError>
    requires { is_some (expressions.minus args) ≡ true }
    ensures { IfOk result (λ e. expressions.minus args ≡ Some e) }
{
    let mut args = args;
    let Some(first) = take_first(&mut args) else {
        unreachable!()
    };
    let Some(second) = take_first(&mut args) else {
        return Ok(Expr::Neg(Boxed::new(alloc, first)?));
    };
    let first = Boxed::new(alloc, first)?;
    let second = Boxed::new(alloc, second)?;
    Ok(Expr::Sub(first, second))
}

/// `/` with two.
fn over(alloc: Global, args: Items<Expr>) -> Result<Expr, AllocError>
    requires { is_some (expressions.over args) ≡ true }
    ensures { IfOk result (λ e. expressions.over args ≡ Some e) }
{
    let mut args = args;
    let Some(first) = take_first(&mut args) else {
        unreachable!()
    };
    let Some(second) = take_first(&mut args) else {
        unreachable!()
    };
    let first = Boxed::new(alloc, first)?;
    let second = Boxed::new(alloc, second)?;
    Ok(Expr::Div(first, second))
}

fn operation(alloc: Global, op: Operator, args: Items<Expr>) -> Result<Expr, AllocError>
    requires { is_some (operation_by op args) ≡ true }
    ensures { IfOk result (λ e. operation_by op args ≡ Some e) }
{
    match op {
        Operator::Plus => Ok(Expr::Add(args)),
        Operator::Times => Ok(Expr::Mul(args)),
        Operator::Minus => minus(alloc, args),
        Operator::Over => over(alloc, args),
    }
}

fn resolve_function(
    alloc: Global,
    names: &Names,
    name: &Spot,
    args: &[Spot],
    faults: &mut FirstFault,
) -> Result<Option<Expr>, AllocError>
    ensures { Reads (both Expr.Call (named (scope_of names.now).funcs name.now) (terms_named (scope_of names.now) args.now)) faults.old faults.new result }
{
    let Some((func, args)) = resolve_call(alloc, names.funcs, names, name, args, faults)? else {
        return Ok(None);
    };
    Ok(Some(Expr::Call { func, args }))
}

#[cycle(expression)]
fn resolve_expressions(
    alloc: Global,
    names: &Names,
    exprs: &[ExprAst],
    faults: &mut FirstFault,
) -> Result<Option<Items<Expr>>, AllocError>
    requires { list_all is_expression exprs.now ≡ true }
    ensures { Reads (each (map (expressions.expression_named (scope_of names.now)) exprs.now)) faults.old faults.new result }
{
    let mut found = Some(Items::new(alloc));
    for expr in exprs {
        let one = resolve_expression(alloc, names, expr, faults)?;
        add(&mut found, one)?;
    }
    Ok(found)
}

#[cycle(expression)]
fn resolve_operation(
    alloc: Global,
    names: &Names,
    op: &Spot,
    args: &[ExprAst],
    faults: &mut FirstFault,
) -> Result<Option<Expr>, AllocError>
    requires operation { is_operation op.now.text (length args.now) ≡ true }
    requires arguments { list_all is_expression args.now ≡ true }
    ensures { Reads (and_then (each (map (expressions.expression_named (scope_of names.now)) args.now)) (expressions.operation_named op.now)) faults.old faults.new result }
{
    let Some(args) = resolve_expressions(alloc, names, args, faults)? else {
        return Ok(None);
    };
    let operator = find_operator(op.text.as_str());
    let made = operation(alloc, operator, args)?;
    Ok(Some(made))
}

/// An expression.
#[cycle(expression)]
pub fn resolve_expression(
    alloc: Global,
    names: &Names,
    expr: &ExprAst,
    faults: &mut FirstFault,
) -> Result<Option<Expr>, AllocError>
    requires { is_expression expr.now ≡ true }
    ensures { Reads (expressions.expression_named (scope_of names.now) expr.now) faults.old faults.new result }
{
    match expr {
        ExprAst::Num(n) => Ok(Some(Expr::Num(*n))),
        ExprAst::Call { name, args } => {
            resolve_function(alloc, names, name, args.as_slice(), faults)
        }
        ExprAst::Op { op, args } => resolve_operation(alloc, names, op, args.as_slice(), faults),
    }
}
