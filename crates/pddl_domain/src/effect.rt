//! Effects, each as the list of its leaves in text order. Begin with `read_effect`, which calls itself on the parts of
//! an `and`.
ghost use Rattle.std.specs.Prelude.{◌≡◌, IfOk, map, true, false};
ghost use Rattle.pddl_form.specs.Gather.{joined};
ghost use Rattle.pddl_form.specs.Judged.{each, mapped};
ghost use Rattle.pddl_form.specs.Reading.{Reads};
ghost use Rattle.pddl_form.specs.Calls.{arguments, call_form};
ghost use Rattle.pddl_condition.specs.Condition.{negation, negated_atom};
ghost use Rattle.pddl_condition.specs.Expression.{expression_form};
ghost use Rattle.pddl_form.specs.Parts.{two_parts};
ghost use Rattle.pddl_form.specs.Typed.{only};
ghost use Rattle.pddl_form.specs.declared.names.Sort.TheVariants.{Term};
ghost use Rattle.pddl_domain.specs.Effect as effect;

use crate::effect_heads::{EffectHead, find_head};
use pddl_condition::{ExprAst, note_unread, read_expression, read_negated_atom};
use pddl_form::{
    Call, FirstFault, Sort, Spot, add_all, make_spot, pair, parted, provided, read_arguments,
    read_call, word,
};
use sexpr::Tree;
use sqlite_items::Items;
use std::alloc::{AllocError, Global};

/// A leaf of an effect.
#[derive(Debug, Drop)]
pub enum EffAst {
    /// An atom that becomes true, or where `pos` is false becomes false.
    Put {
        pos: bool,
        name: Spot,
        args: Items<Spot>,
    },
    /// A function that changes.
    Change {
        op: Spot,
        name: Spot,
        args: Items<Spot>,
        by: ExprAst,
    },
}

fn one_leaf(alloc: Global, leaf: EffAst) -> Result<Items<EffAst>, AllocError>
    ensures { IfOk result (λ leaves. leaves ≡ only leaf) }
{
    let mut leaves = Items::new(alloc);
    leaves.push(leaf)?;
    Ok(leaves)
}

fn read_put(
    alloc: Global,
    head: &Tree,
    parts: &[Tree],
    faults: &mut FirstFault,
) -> Result<Option<Items<EffAst>>, AllocError>
    ensures { Reads (mapped (effect.put_leaf true) (arguments Term head.now parts.now)) faults.old faults.new result }
{
    let Some(call) = read_arguments(alloc, Sort::Term, head, parts, faults)? else {
        return Ok(None);
    };
    let Call { name, args } = call;
    let leaves = one_leaf(
        alloc,
        EffAst::Put {
            pos: true,
            name,
            args,
        },
    )?;
    Ok(Some(leaves))
}

/// `(not ATOM)`.
fn read_deletion(
    alloc: Global,
    start: u32,
    end: u32,
    not: &Tree,
    parts: &[Tree],
    faults: &mut FirstFault,
) -> Result<Option<Items<EffAst>>, AllocError>
    ensures { Reads (mapped (effect.put_leaf false) (negation (negated_atom Term not.now) start end parts.now)) faults.old faults.new result }
{
    let Some(call) = read_negated_atom(alloc, Sort::Term, start, end, not, parts, faults)? else {
        return Ok(None);
    };
    let Call { name, args } = call;
    let leaves = one_leaf(
        alloc,
        EffAst::Put {
            pos: false,
            name,
            args,
        },
    )?;
    Ok(Some(leaves))
}

fn read_change_parts(
    alloc: Global,
    start: u32,
    end: u32,
    parts: &[Tree],
    faults: &mut FirstFault,
) -> Result<Option<(Call, ExprAst)>, AllocError>
    ensures { Reads (two_parts (call_form Term) expression_form start end parts.now) faults.old faults.new result }
{
    let Some((first, rest)) = parted(parts) else {
        faults.lacking(alloc, end);
        return Ok(None);
    };
    let target = read_call(alloc, Sort::Term, first, faults)?;
    let Some((second, more)) = parted(rest) else {
        faults.lacking(alloc, end);
        return Ok(None);
    };
    let amount = read_expression(alloc, second, faults)?;
    let both = pair(target, amount);
    let none_left = more.is_empty();
    Ok(provided(alloc, none_left, start, both, faults))
}

/// `(OP (NAME TERM ..) EXPR)`.
#[tactic(auto, unfolding(crate::specs::Effect::change))]
fn read_change(
    alloc: Global,
    start: u32,
    end: u32,
    head: &Tree,
    parts: &[Tree],
    faults: &mut FirstFault,
) -> Result<Option<Items<EffAst>>, AllocError>
    ensures { Reads (effect.change start end head.now parts.now) faults.old faults.new result }
{
    let Some((call, by)) = read_change_parts(alloc, start, end, parts, faults)? else {
        return Ok(None);
    };
    let Call { name, args } = call;
    let op = make_spot(alloc, head)?;
    let leaves = one_leaf(alloc, EffAst::Change { op, name, args, by })?;
    Ok(Some(leaves))
}

#[cycle(effect)]
fn read_leaves(
    alloc: Global,
    trees: &[Tree],
    faults: &mut FirstFault,
) -> Result<Option<Items<EffAst>>, AllocError>
    ensures { Reads (mapped joined (each (map effect.effect_form trees.now))) faults.old faults.new result }
{
    let mut found = Some(Items::new(alloc));
    for tree in trees {
        let more = read_effect(alloc, tree, faults)?;
        add_all(&mut found, more)?;
    }
    Ok(found)
}

/// A list with this head and these trees behind it.
#[cycle(effect)]
#[tactic(auto, unfolding(pddl_form::specs::Judged::noted, crate::specs::Effect::headed_effect))]
fn read_headed(
    alloc: Global,
    start: u32,
    end: u32,
    head: &Tree,
    parts: &[Tree],
    faults: &mut FirstFault,
) -> Result<Option<Items<EffAst>>, AllocError>
    ensures { Reads (effect.headed_effect start end head.now parts.now (map effect.effect_form parts.now)) faults.old faults.new result }
{
    match find_head(word(head)) {
        EffectHead::And => read_leaves(alloc, parts, faults),
        EffectHead::Not => read_deletion(alloc, start, end, head, parts, faults),
        EffectHead::Change => read_change(alloc, start, end, head, parts, faults),
        EffectHead::Unread => note_unread(alloc, head, faults),
        EffectHead::Predicate => read_put(alloc, head, parts, faults),
        EffectHead::Other => {
            faults.misshapen(alloc, start);
            Ok(None)
        }
    }
}

#[cycle(effect)]
#[tactic(auto, unfolding(pddl_form::specs::Judged::noted))]
fn read_list(
    alloc: Global,
    start: u32,
    end: u32,
    items: &[Tree],
    faults: &mut FirstFault,
) -> Result<Option<Items<EffAst>>, AllocError>
    ensures { Reads (effect.effect_list start end items.now (map effect.effect_form items.now)) faults.old faults.new result }
{
    let [head, parts @ ..] = items else {
        return Ok(Some(Items::new(alloc)));
    };
    read_headed(alloc, start, end, head, parts, faults)
}

/// An effect.
#[cycle(effect)]
#[tactic(auto, unfolding(pddl_form::specs::Judged::noted))]
pub fn read_effect(
    alloc: Global,
    tree: &Tree,
    faults: &mut FirstFault,
) -> Result<Option<Items<EffAst>>, AllocError>
    ensures { Reads (effect.effect_form tree.now) faults.old faults.new result }
{
    match tree {
        Tree::Word { start, .. } => {
            faults.misshapen(alloc, *start);
            Ok(None)
        }
        Tree::List { start, end, items } => {
            read_list(alloc, *start, *end, items.as_slice(), faults)
        }
    }
}
