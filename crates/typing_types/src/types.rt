//! Types: the pass over a domain, in which each argument fits where it stands, and no type stands above itself.
//!
//! Begin with `judge_expression`, which calls itself on the arguments of an operation, then `judge_domain_types`.
ghost use Rattle.std.specs.Prelude.{◌≡◌, ◌<◌, Some, true, length, IfSome, OnOk};
ghost use Rattle.std.specs.List.{flat_map};
ghost use Rattle.pddl_form.specs.Faults.{least};
ghost use Rattle.typing_uses.specs.Scope.{sighted, texts};
ghost use Rattle.typing_names.specs.Domain.{names_of};
ghost use Rattle.typing_types.specs.Types as types;
ghost use Rattle.typing_types.specs.Known.{AreTyped, are_all_types, declared_of, domain_type_faults, have_types};

use crate::fit::{Known, judge_atom, judge_function, note_misfit};
use hierarchy::Hierarchy;
use name_table::NameTable;
use pddl_condition::{CondAst, ExprAst};
use pddl_domain::{ActionAst, DomainAst, EffAst};
use pddl_form::{FirstFault, Typed};
use pddl_task::Action;
use std::alloc::{AllocError, Global};
use typing_names::add_name;
use typing_uses::Names;

#[cycle(types)]
fn judge_expressions(alloc: Global, known: &Known, exprs: &[ExprAst], faults: &mut FirstFault)
    requires { AreTyped (declared_of known.now) }
    ensures { faults.new ≡ least faults.old (flat_map (types.expression_faults (declared_of known.now)) exprs.now) }
{
    for expr in exprs {
        judge_expression(alloc, known, expr, faults);
    }
}

#[cycle(types)]
fn judge_expression(alloc: Global, known: &Known, expr: &ExprAst, faults: &mut FirstFault)
    requires { AreTyped (declared_of known.now) }
    ensures { faults.new ≡ least faults.old (types.expression_faults (declared_of known.now) expr.now) }
{
    match expr {
        ExprAst::Num(_) => {}
        ExprAst::Call { name, args } => judge_function(alloc, known, name, args.as_slice(), faults),
        ExprAst::Op { args, .. } => judge_expressions(alloc, known, args.as_slice(), faults),
    }
}

#[tactic(auto, using(typing_linear::proofs::Noted::both_noted))]
fn judge_condition(alloc: Global, known: &Known, condition: &CondAst, faults: &mut FirstFault)
    requires { AreTyped (declared_of known.now) }
    ensures { faults.new ≡ least faults.old (types.condition_faults (declared_of known.now) condition.now) }
{
    match condition {
        CondAst::Lit { name, args, .. } => judge_atom(alloc, known, name, args.as_slice(), faults),
        CondAst::Same { .. } => {}
        CondAst::Compare { left, right, .. } => {
            judge_expression(alloc, known, left, faults);
            judge_expression(alloc, known, right, faults);
        }
    }
}

pub(crate) fn judge_conditions(
    alloc: Global,
    known: &Known,
    conditions: &[CondAst],
    faults: &mut FirstFault,
)
    requires { AreTyped (declared_of known.now) }
    ensures { faults.new ≡ least faults.old (flat_map (types.condition_faults (declared_of known.now)) conditions.now) }
{
    for condition in conditions {
        judge_condition(alloc, known, condition, faults);
    }
}

#[tactic(auto, using(typing_linear::proofs::Noted::both_noted))]
fn judge_effect(alloc: Global, known: &Known, effect: &EffAst, faults: &mut FirstFault)
    requires { AreTyped (declared_of known.now) }
    ensures { faults.new ≡ least faults.old (types.effect_faults (declared_of known.now) effect.now) }
{
    match effect {
        EffAst::Put { name, args, .. } => judge_atom(alloc, known, name, args.as_slice(), faults),
        EffAst::Change { name, args, by, .. } => {
            judge_function(alloc, known, name, args.as_slice(), faults);
            judge_expression(alloc, known, by, faults);
        }
    }
}

fn judge_effects(alloc: Global, known: &Known, effects: &[EffAst], faults: &mut FirstFault)
    requires { AreTyped (declared_of known.now) }
    ensures { faults.new ≡ least faults.old (flat_map (types.effect_faults (declared_of known.now)) effects.now) }
{
    for effect in effects {
        judge_effect(alloc, known, effect, faults);
    }
}

#[tactic(auto, using(typing_linear::proofs::Noted::both_noted))]
fn judge_body(alloc: Global, known: &Known, written: &ActionAst, faults: &mut FirstFault)
    requires { AreTyped (declared_of known.now) }
    ensures { faults.new ≡ least faults.old (types.body_faults (declared_of known.now) written.now) }
{
    judge_conditions(alloc, known, written.conds.as_slice(), faults);
    judge_effects(alloc, known, written.effs.as_slice(), faults);
}

/// The names of parameters, in the order of first sight.
fn name_params(table: &mut NameTable, params: &[Typed]) -> Result<(), AllocError>
    ensures { OnOk result (table.new ≡ sighted table.old (texts (names_of params.now))) }
{
    for param in params {
        add_name(table, param.name.text.as_str())?;
    }
    Ok(())
}

/// An action as it is written, with what it comes to.
fn judge_action<'a>(
    alloc: Global,
    known: &Known<'a>,
    written: &ActionAst,
    action: &'a Action,
    faults: &mut FirstFault,
) -> Result<(), AllocError>
    requires typed { AreTyped (declared_of known.now) }
    requires params { are_all_types (length known.now.hierarchy.now) action.now.params ≡ true }
    ensures { OnOk result (faults.new ≡ least faults.old (types.body_faults (types.inside (declared_of known.now) written.now (Some action.now)) written.now)) }
{
    let mut table = NameTable::new(alloc);
    name_params(&mut table, written.params.as_slice())?;
    let inside = Known {
        names: Names {
            params: &table,
            ..known.names
        },
        params: action.params.as_slice(),
        ..*known
    };
    judge_body(alloc, &inside, written, faults);
    Ok(())
}

fn judge_actions<'a>(
    alloc: Global,
    known: &Known<'a>,
    written: &[ActionAst],
    actions: &'a [Action],
    faults: &mut FirstFault,
) -> Result<(), AllocError>
    requires typed { AreTyped (declared_of known.now) }
    requires actions { have_types (length known.now.hierarchy.now) actions.now ≡ true }
    ensures { OnOk result (faults.new ≡ least faults.old (types.action_faults (declared_of known.now) written.now actions.now)) }
{
    for (at, one) in written.iter().enumerate() {
        let Some(action) = actions.get(at) else {
            return Ok(());
        };
        judge_action(alloc, known, one, action, faults)?;
    }
    Ok(())
}

/// Whether a type stands above itself; `object`, which has the number 0 and is above itself, where it stands under another.
fn is_on_circle(hierarchy: &Hierarchy, t: Option<u32>) -> bool
    requires { IfSome t (λ t. t < length hierarchy.now) }
    ensures { result ≡ types.is_on_circle hierarchy.now t }
{
    match t {
        None => false,
        Some(t) => {
            if t == 0 {
                hierarchy.parent(t) != 0
            } else {
                hierarchy.is_own_ancestor(t)
            }
        }
    }
}

fn judge_type(
    alloc: Global,
    hierarchy: &Hierarchy,
    table: &NameTable,
    listed: &Typed,
    faults: &mut FirstFault,
)
    requires { length table.now ≡ length hierarchy.now }
    ensures { faults.new ≡ least faults.old (types.type_faults table.now hierarchy.now listed.now) }
{
    let t = table.find(listed.name.text.as_str());
    if is_on_circle(hierarchy, t) {
        note_misfit(alloc, listed.name.place, faults);
    }
}

fn judge_types(
    alloc: Global,
    hierarchy: &Hierarchy,
    table: &NameTable,
    listed: &[Typed],
    faults: &mut FirstFault,
)
    requires { length table.now ≡ length hierarchy.now }
    ensures { faults.new ≡ least faults.old (flat_map (types.type_faults table.now hierarchy.now) listed.now) }
{
    for one in listed {
        judge_type(alloc, hierarchy, table, one, faults);
    }
}

/// The pass over the types of a domain, with the actions that it comes to.
#[tactic(auto, using(typing_linear::proofs::Noted::both_noted))]
pub fn judge_domain_types<'a>(
    alloc: Global,
    known: &Known<'a>,
    domain: &DomainAst,
    actions: &'a [Action],
    faults: &mut FirstFault,
) -> Result<(), AllocError>
    requires typed { AreTyped (declared_of known.now) }
    requires actions { have_types (length known.now.hierarchy.now) actions.now ≡ true }
    ensures { OnOk result (faults.new ≡ least faults.old (domain_type_faults (declared_of known.now) domain.now actions.now)) }
{
    judge_types(
        alloc,
        known.hierarchy,
        known.names.types,
        domain.types.as_slice(),
        faults,
    );
    judge_actions(alloc, known, domain.actions.as_slice(), actions, faults)?;
    Ok(())
}
