//! Conditions with numbers for names. Begin with `resolve_condition`.
ghost use Rattle.std.specs.Prelude.{◌≡◌, true, map, Some, is_some};
ghost use Rattle.std.specs.List.{list_all};
ghost use Rattle.kw_table.specs.Table.{Rises};
ghost use Rattle.pddl_condition.specs.Grammar.{is_condition, is_expression, is_relation};
ghost use Rattle.pddl_form.specs.Judged.{both};
ghost use Rattle.pddl_form.specs.Parts.{pair};
ghost use Rattle.pddl_form.specs.Reading.{IsRead, Reads};
ghost use Rattle.typing_uses.specs.Scope.{named, term_named, terms_named};
ghost use Rattle.typing_uses.specs.Names.{scope_of};
ghost use Rattle.typing_uses.specs.Expressions as expressions;

use crate::expressions::{resolve_call, resolve_expression};
use crate::scope::{Names, find_term};
use kw_table::{Table, rows};
use pddl_condition::{CondAst, ExprAst};
use pddl_form::{FirstFault, Spot, add, pair};
use pddl_task::{Cond, Expr, Rel, Term};
use sqlite_items::Items;
use std::alloc::{AllocError, Global};

const RELATIONS: Table<5> = Table {
    words: ["<", "<=", "=", ">", ">="],
};

/// The relations stand in byte order.
pub fn relations_rise()
    ensures { Rises (map (λ w. w.now) RELATIONS.words) }
{}

/// The relation that a word is.
#[tactic(auto, using(crate::proofs::Words::relation_rows))]
fn find_relation(text: &str) -> Rel
    requires { is_some (expressions.relation text.now) ≡ true }
    ensures { expressions.relation text.now ≡ Some result }
{
    let table = &RELATIONS;
    rows! {
        table, text.as_bytes();
        "<" => Rel::Lt,
        "<=" => Rel::Le,
        "=" => Rel::Eq,
        ">" => Rel::Gt,
        ">=" => Rel::Ge;
        else => unreachable!()
    }
}

fn resolve_literal(
    alloc: Global,
    names: &Names,
    pos: bool,
    name: &Spot,
    args: &[Spot],
    faults: &mut FirstFault,
) -> Result<Option<Cond>, AllocError>
    ensures { Reads (both (Cond.Lit pos) (named (scope_of names.now).preds name.now) (terms_named (scope_of names.now) args.now)) faults.old faults.new result }
{
    let Some((pred, args)) = resolve_call(alloc, names.preds, names, name, args, faults)? else {
        return Ok(None);
    };
    Ok(Some(Cond::Lit { pos, pred, args }))
}

fn resolve_terms(
    alloc: Global,
    names: &Names,
    left: &Spot,
    right: &Spot,
    faults: &mut FirstFault,
) -> Option<(Term, Term)>
    ensures { IsRead (both pair (term_named (scope_of names.now) left.now) (term_named (scope_of names.now) right.now)) faults.old faults.new result }
{
    let left = find_term(alloc, names, left, faults);
    let right = find_term(alloc, names, right, faults);
    pair(left, right)
}

fn resolve_equality(
    alloc: Global,
    names: &Names,
    pos: bool,
    left: &Spot,
    right: &Spot,
    faults: &mut FirstFault,
) -> Option<Cond>
    ensures { IsRead (both (Cond.Same pos) (term_named (scope_of names.now) left.now) (term_named (scope_of names.now) right.now)) faults.old faults.new result }
{
    let Some((left, right)) = resolve_terms(alloc, names, left, right, faults) else {
        return None;
    };
    Some(Cond::Same { pos, left, right })
}

fn resolve_sides(
    alloc: Global,
    names: &Names,
    left: &ExprAst,
    right: &ExprAst,
    faults: &mut FirstFault,
) -> Result<Option<(Expr, Expr)>, AllocError>
    requires left { is_expression left.now ≡ true }
    requires right { is_expression right.now ≡ true }
    ensures { Reads (both pair (expressions.expression_named (scope_of names.now) left.now) (expressions.expression_named (scope_of names.now) right.now)) faults.old faults.new result }
{
    let left = resolve_expression(alloc, names, left, faults)?;
    let right = resolve_expression(alloc, names, right, faults)?;
    Ok(pair(left, right))
}

fn resolve_comparison(
    alloc: Global,
    names: &Names,
    rel: &Spot,
    left: &ExprAst,
    right: &ExprAst,
    faults: &mut FirstFault,
) -> Result<Option<Cond>, AllocError>
    requires relation { is_relation rel.now.text ≡ true }
    requires left { is_expression left.now ≡ true }
    requires right { is_expression right.now ≡ true }
    ensures { Reads (expressions.comparison_named (scope_of names.now) rel.now left.now right.now) faults.old faults.new result }
{
    let rel = find_relation(rel.text.as_str());
    let Some((left, right)) = resolve_sides(alloc, names, left, right, faults)? else {
        return Ok(None);
    };
    Ok(Some(Cond::Compare { rel, left, right }))
}

/// A leaf of a condition.
pub fn resolve_condition(
    alloc: Global,
    names: &Names,
    cond: &CondAst,
    faults: &mut FirstFault,
) -> Result<Option<Cond>, AllocError>
    requires { is_condition cond.now ≡ true }
    ensures { Reads (expressions.condition_named (scope_of names.now) cond.now) faults.old faults.new result }
{
    match cond {
        CondAst::Lit { pos, name, args } => {
            resolve_literal(alloc, names, *pos, name, args.as_slice(), faults)
        }
        CondAst::Same { pos, left, right } => {
            Ok(resolve_equality(alloc, names, *pos, left, right, faults))
        }
        CondAst::Compare { rel, left, right } => {
            resolve_comparison(alloc, names, rel, left, right, faults)
        }
    }
}

pub fn resolve_conditions(
    alloc: Global,
    names: &Names,
    conds: &[CondAst],
    faults: &mut FirstFault,
) -> Result<Option<Items<Cond>>, AllocError>
    requires { list_all is_condition conds.now ≡ true }
    ensures { Reads (expressions.conditions_named (scope_of names.now) conds.now) faults.old faults.new result }
{
    let mut found = Some(Items::new(alloc));
    for cond in conds {
        let one = resolve_condition(alloc, names, cond, faults)?;
        add(&mut found, one)?;
    }
    Ok(found)
}
