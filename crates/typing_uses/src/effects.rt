//! Effects with numbers for names. Begin with `resolve_effect`.
ghost use Rattle.std.specs.Prelude.{◌≡◌, true, map, Some, is_some};
ghost use Rattle.std.specs.List.{list_all};
ghost use Rattle.kw_table.specs.Table.{Rises};
ghost use Rattle.pddl_condition.specs.Grammar.{is_expression};
ghost use Rattle.pddl_domain.specs.Effect.{changes};
ghost use Rattle.pddl_domain.specs.Grammar.{is_effect};
ghost use Rattle.pddl_form.specs.Judged.{both};
ghost use Rattle.pddl_form.specs.Names.{is_one_of};
ghost use Rattle.pddl_form.specs.Parts.{pair};
ghost use Rattle.pddl_form.specs.Reading.{Reads};
ghost use Rattle.typing_uses.specs.Scope.{named, terms_named};
ghost use Rattle.typing_uses.specs.Names.{scope_of};
ghost use Rattle.typing_uses.specs.Expressions as expressions;

use crate::expressions::{resolve_call, resolve_expression};
use crate::scope::Names;
use kw_table::{Table, rows};
use pddl_condition::ExprAst;
use pddl_domain::EffAst;
use pddl_form::{FirstFault, Spot, add, pair};
use pddl_task::{Effect, Expr, NumOp, Term};
use sqlite_items::Items;
use std::alloc::{AllocError, Global};

const CHANGES: Table<5> = Table {
    words: ["assign", "decrease", "increase", "scale-down", "scale-up"],
};

/// The words of changes stand in byte order.
pub fn changes_rise()
    ensures { Rises (map (λ w. w.now) CHANGES.words) }
{}

/// The change that a word is.
#[tactic(auto, using(crate::proofs::Words::change_rows))]
fn find_change(text: &str) -> NumOp
    requires { is_some (expressions.change_operator text.now) ≡ true }
    ensures { expressions.change_operator text.now ≡ Some result }
{
    let table = &CHANGES;
    rows! {
        table, text.as_bytes();
        "assign" => NumOp::Assign,
        "decrease" => NumOp::Decrease,
        "increase" => NumOp::Increase,
        "scale-down" => NumOp::ScaleDown,
        "scale-up" => NumOp::ScaleUp;
        else => unreachable!()
    }
}

fn resolve_put(
    alloc: Global,
    names: &Names,
    pos: bool,
    name: &Spot,
    args: &[Spot],
    faults: &mut FirstFault,
) -> Result<Option<Effect>, AllocError>
    ensures { Reads (both (Effect.Put pos) (named (scope_of names.now).preds name.now) (terms_named (scope_of names.now) args.now)) faults.old faults.new result }
{
    let Some((pred, args)) = resolve_call(alloc, names.preds, names, name, args, faults)? else {
        return Ok(None);
    };
    Ok(Some(Effect::Put { pos, pred, args }))
}

/// A function with its arguments, and the expression that it changes by.
fn resolve_change_parts(
    alloc: Global,
    names: &Names,
    name: &Spot,
    args: &[Spot],
    by: &ExprAst,
    faults: &mut FirstFault,
) -> Result<Option<((u32, Items<Term>), Expr)>, AllocError>
    requires { is_expression by.now ≡ true }
    ensures { Reads (both pair (both pair (named (scope_of names.now).funcs name.now) (terms_named (scope_of names.now) args.now)) (expressions.expression_named (scope_of names.now) by.now)) faults.old faults.new result }
{
    let call = resolve_call(alloc, names.funcs, names, name, args, faults)?;
    let by = resolve_expression(alloc, names, by, faults)?;
    Ok(pair(call, by))
}

fn resolve_change(
    alloc: Global,
    names: &Names,
    op: &Spot,
    name: &Spot,
    args: &[Spot],
    by: &ExprAst,
    faults: &mut FirstFault,
) -> Result<Option<Effect>, AllocError>
    requires operator { is_one_of changes op.now.text ≡ true }
    requires by { is_expression by.now ≡ true }
    ensures { Reads (expressions.change_named (scope_of names.now) op.now name.now args.now by.now) faults.old faults.new result }
{
    let op = find_change(op.text.as_str());
    let Some((call, by)) = resolve_change_parts(alloc, names, name, args, by, faults)? else {
        return Ok(None);
    };
    let (func, args) = call;
    Ok(Some(Effect::Change { op, func, args, by }))
}

/// A leaf of an effect.
pub fn resolve_effect(
    alloc: Global,
    names: &Names,
    effect: &EffAst,
    faults: &mut FirstFault,
) -> Result<Option<Effect>, AllocError>
    requires { is_effect effect.now ≡ true }
    ensures { Reads (expressions.effect_named (scope_of names.now) effect.now) faults.old faults.new result }
{
    match effect {
        EffAst::Put { pos, name, args } => {
            resolve_put(alloc, names, *pos, name, args.as_slice(), faults)
        }
        EffAst::Change { op, name, args, by } => {
            resolve_change(alloc, names, op, name, args.as_slice(), by, faults)
        }
    }
}

pub fn resolve_effects(
    alloc: Global,
    names: &Names,
    effects: &[EffAst],
    faults: &mut FirstFault,
) -> Result<Option<Items<Effect>>, AllocError>
    requires { list_all is_effect effects.now ≡ true }
    ensures { Reads (expressions.effects_named (scope_of names.now) effects.now) faults.old faults.new result }
{
    let mut found = Some(Items::new(alloc));
    for effect in effects {
        let one = resolve_effect(alloc, names, effect, faults)?;
        add(&mut found, one)?;
    }
    Ok(found)
}
