//! Expressions. Begin with `read_expression`, which calls itself on the arguments of an operation.
ghost use Rattle.std.specs.Prelude.{◌≡◌, IfOk, map};
ghost use Rattle.std.specs.Option.{option_map};
ghost use Rattle.kw_table.specs.Table.{Rises};
ghost use Rattle.frac128.specs.Number.{number_of};
ghost use Rattle.pddl_form.specs.Judged.{at_least, each, mapped};
ghost use Rattle.pddl_form.specs.Reading.{Reads};
ghost use Rattle.pddl_form.specs.Words.{spot_of};
ghost use Rattle.pddl_form.specs.Calls.{arguments};
ghost use Rattle.pddl_form.specs.declared.names.Sort.TheVariants.{Term};
ghost use Rattle.pddl_condition.specs.Expression as expression;

use frac128::Frac;
use kw_table::{Table, rows};
use pddl_form::{
    Call, FirstFault, Sort, Spot, add, is_symbol, make_spot, provided, read_arguments, word,
};
use sexpr::Tree;
use sqlite_items::Items;
use std::alloc::{AllocError, Global};

/// A number, a function with its arguments, or an operation.
#[derive(Debug, Drop)]
pub enum ExprAst {
    Num(Frac),
    Call { name: Spot, args: Items<Spot> },
    Op { op: Spot, args: Items<ExprAst> },
}

/// What the head of a list makes of it.
#[derive(Clone, Copy)]
pub enum Operator {
    /// `+` and `*`, of two or more arguments.
    Fold,
    Minus,
    Over,
    Function,
    Other,
}

const OPERATORS: Table<4> = Table {
    words: ["*", "+", "-", "/"],
};

/// The operators stand in byte order.
pub fn operators_rise()
    ensures { Rises (map (λ w. w.now) OPERATORS.words) }
{}

/// The head of a call, or of no expression.
fn other_operator(text: &str) -> Operator
    ensures { result ≡ expression.other_operator text.now }
{
    if is_symbol(text) {
        Operator::Function
    } else {
        Operator::Other
    }
}

#[tactic(auto, using(crate::proofs::Keywords::operator_rows))]
fn find_operator(text: &str) -> Operator
    ensures { result ≡ expression.operator_of text.now }
{
    let table = &OPERATORS;
    rows! {
        table, text.as_bytes();
        "*" => Operator::Fold,
        "+" => Operator::Fold,
        "-" => Operator::Minus,
        "/" => Operator::Over;
        else => other_operator(text)
    }
}

fn number(text: &str) -> Option<Frac>
    ensures { result ≡ number_of text.now }
{
    Frac::from_decimal(text.as_bytes()).ok()
}

/// The number that a word spells.
#[tactic(auto, unfolding(crate::specs::Expression::number_form, pddl_form::specs::Judged::noted))]
pub fn read_number(
    alloc: Global,
    text: &str,
    place: u32,
    faults: &mut FirstFault,
) -> Result<Option<Frac>, AllocError>
    ensures { Reads (expression.number_form place text.now) faults.old faults.new result }
{
    let found = number(text);
    if found.is_none() {
        faults.no_number(alloc, place);
    }
    Ok(found)
}

fn read_call_expression(
    alloc: Global,
    head: &Tree,
    parts: &[Tree],
    faults: &mut FirstFault,
) -> Result<Option<ExprAst>, AllocError>
    ensures { Reads (mapped expression.call_expression (arguments Term head.now parts.now)) faults.old faults.new result }
{
    let Some(call) = read_arguments(alloc, Sort::Term, head, parts, faults)? else {
        return Ok(None);
    };
    let Call { name, args } = call;
    Ok(Some(ExprAst::Call { name, args }))
}

fn operated(
    alloc: Global,
    head: &Tree,
    args: Option<Items<ExprAst>>,
) -> Result<Option<ExprAst>, AllocError>
    ensures { IfOk result (λ r. r ≡ option_map (ExprAst.Op (spot_of head.now)) args) }
{
    let Some(args) = args else {
        return Ok(None);
    };
    let op = make_spot(alloc, head)?;
    Ok(Some(ExprAst::Op { op, args }))
}

fn read_number_expression(
    alloc: Global,
    text: &str,
    place: u32,
    faults: &mut FirstFault,
) -> Result<Option<ExprAst>, AllocError>
    ensures { Reads (mapped ExprAst.Num (expression.number_form place text.now)) faults.old faults.new result }
{
    let Some(number) = read_number(alloc, text, place, faults)? else {
        return Ok(None);
    };
    Ok(Some(ExprAst::Num(number)))
}

#[cycle(expression)]
fn read_expressions(
    alloc: Global,
    trees: &[Tree],
    faults: &mut FirstFault,
) -> Result<Option<Items<ExprAst>>, AllocError>
    ensures { Reads (each (map expression.expression_form trees.now)) faults.old faults.new result }
{
    let mut found = Some(Items::new(alloc));
    for tree in trees {
        let one = read_expression(alloc, tree, faults)?;
        add(&mut found, one)?;
    }
    Ok(found)
}

/// At least so many arguments.
#[cycle(expression)]
fn read_at_least(
    alloc: Global,
    least: usize,
    end: u32,
    trees: &[Tree],
    faults: &mut FirstFault,
) -> Result<Option<Items<ExprAst>>, AllocError>
    ensures { Reads (at_least least end (map expression.expression_form trees.now)) faults.old faults.new result }
{
    let args = read_expressions(alloc, trees, faults)?;
    let enough = trees.len() >= least;
    Ok(provided(alloc, enough, end.saturating_sub(1), args, faults))
}

/// At least so many arguments, and at most two.
#[cycle(expression)]
fn read_up_to_two(
    alloc: Global,
    least: usize,
    start: u32,
    end: u32,
    trees: &[Tree],
    faults: &mut FirstFault,
) -> Result<Option<Items<ExprAst>>, AllocError>
    ensures { Reads (expression.up_to_two least start end (map expression.expression_form trees.now)) faults.old faults.new result }
{
    let args = read_at_least(alloc, least, end, trees, faults)?;
    let few = trees.len() <= 2;
    Ok(provided(alloc, few, start, args, faults))
}

/// A list with this head and these trees behind it.
#[cycle(expression)]
#[tactic(auto, unfolding(pddl_form::specs::Judged::noted, crate::specs::Expression::headed_expression))]
fn read_headed(
    alloc: Global,
    start: u32,
    end: u32,
    head: &Tree,
    parts: &[Tree],
    faults: &mut FirstFault,
) -> Result<Option<ExprAst>, AllocError>
    ensures { Reads (expression.headed_expression start end head.now parts.now (map expression.expression_form parts.now)) faults.old faults.new result }
{
    match find_operator(word(head)) {
        Operator::Fold => {
            let args = read_at_least(alloc, 2, end, parts, faults)?;
            let made = operated(alloc, head, args)?;
            Ok(made)
        }
        Operator::Minus => {
            let args = read_up_to_two(alloc, 1, start, end, parts, faults)?;
            let made = operated(alloc, head, args)?;
            Ok(made)
        }
        Operator::Over => {
            let args = read_up_to_two(alloc, 2, start, end, parts, faults)?;
            let made = operated(alloc, head, args)?;
            Ok(made)
        }
        Operator::Function => read_call_expression(alloc, head, parts, faults),
        Operator::Other => {
            faults.misshapen(alloc, start);
            Ok(None)
        }
    }
}

#[cycle(expression)]
#[tactic(auto, unfolding(pddl_form::specs::Judged::noted))]
fn read_list(
    alloc: Global,
    start: u32,
    end: u32,
    items: &[Tree],
    faults: &mut FirstFault,
) -> Result<Option<ExprAst>, AllocError>
    ensures { Reads (expression.expression_list start end items.now (map expression.expression_form items.now)) faults.old faults.new result }
{
    let [head, parts @ ..] = items else {
        faults.lacking(alloc, end);
        return Ok(None);
    };
    read_headed(alloc, start, end, head, parts, faults)
}

/// An expression.
#[cycle(expression)]
pub fn read_expression(
    alloc: Global,
    tree: &Tree,
    faults: &mut FirstFault,
) -> Result<Option<ExprAst>, AllocError>
    ensures { Reads (expression.expression_form tree.now) faults.old faults.new result }
{
    match tree {
        Tree::Word { start, text, .. } => {
            read_number_expression(alloc, text.as_str(), *start, faults)
        }
        Tree::List { start, end, items } => {
            read_list(alloc, *start, *end, items.as_slice(), faults)
        }
    }
}
