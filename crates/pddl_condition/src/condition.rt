//! Conditions, each as the list of its leaves in text order. Begin with `read_condition`, which calls itself on the
//! parts of an `and`.
ghost use Rattle.std.specs.Prelude.{◌≡◌, IfOk, map, true, false};
ghost use Rattle.std.specs.Option.{option_map};
ghost use Rattle.pddl_form.specs.Gather.{joined};
ghost use Rattle.pddl_form.specs.Judged.{each, mapped};
ghost use Rattle.pddl_form.specs.Reading.{Reads};
ghost use Rattle.pddl_form.specs.Calls.{arguments};
ghost use Rattle.pddl_form.specs.Parts.{two_parts};
ghost use Rattle.pddl_form.specs.Typed.{only};
ghost use Rattle.pddl_form.specs.declared.names.Sort.TheVariants.{Term};
ghost use Rattle.pddl_condition.specs.Expression.{expression_form};
ghost use Rattle.pddl_condition.specs.Condition as condition;

use crate::expression::{ExprAst, read_expression};
use crate::heads::{Head, find_head};
use pddl_form::{
    Call, FirstFault, Sort, Spot, add_all, make_spot, pair, parted, provided, read_arguments,
    takes, word,
};
use sexpr::Tree;
use sqlite_items::Items;
use std::alloc::{AllocError, Global};

/// A leaf of a condition.
#[derive(Debug, Drop)]
pub enum CondAst {
    /// An atom, or where `pos` is false its negation.
    Lit {
        pos: bool,
        name: Spot,
        args: Items<Spot>,
    },
    /// An equality of objects, or where `pos` is false its negation.
    Same {
        pos: bool,
        left: Spot,
        right: Spot,
    },
    Compare {
        rel: Spot,
        left: ExprAst,
        right: ExprAst,
    },
}

/// The two sides of an equality of objects.
fn equal_sides(parts: &[Tree]) -> Option<(&Tree, &Tree)>
    ensures { option_map (λ p. (p.0.now, p.1.now)) result ≡ condition.equal_sides parts.now }
{
    let [left, right] = parts else {
        return None;
    };
    if takes(Sort::Term, word(left)) && takes(Sort::Term, word(right)) {
        Some((left, right))
    } else {
        None
    }
}

fn one_leaf(alloc: Global, leaf: CondAst) -> Result<Items<CondAst>, AllocError>
    ensures { IfOk result (λ leaves. leaves ≡ only leaf) }
{
    let mut leaves = Items::new(alloc);
    leaves.push(leaf)?;
    Ok(leaves)
}

fn same_leaf(
    alloc: Global,
    pos: bool,
    left: &Tree,
    right: &Tree,
) -> Result<Items<CondAst>, AllocError>
    ensures { IfOk result (λ leaves. leaves ≡ condition.same_leaf pos (left.now, right.now)) }
{
    let left = make_spot(alloc, left)?;
    let right = make_spot(alloc, right)?;
    one_leaf(alloc, CondAst::Same { pos, left, right })
}

fn read_literal(
    alloc: Global,
    pos: bool,
    head: &Tree,
    parts: &[Tree],
    faults: &mut FirstFault,
) -> Result<Option<Items<CondAst>>, AllocError>
    ensures { Reads (mapped (condition.literal_leaf pos) (arguments Term head.now parts.now)) faults.old faults.new result }
{
    let Some(call) = read_arguments(alloc, Sort::Term, head, parts, faults)? else {
        return Ok(None);
    };
    let Call { name, args } = call;
    let leaves = one_leaf(alloc, CondAst::Lit { pos, name, args })?;
    Ok(Some(leaves))
}

fn read_sides(
    alloc: Global,
    start: u32,
    end: u32,
    parts: &[Tree],
    faults: &mut FirstFault,
) -> Result<Option<(ExprAst, ExprAst)>, AllocError>
    ensures { Reads (two_parts expression_form expression_form start end parts.now) faults.old faults.new result }
{
    let Some((first, rest)) = parted(parts) else {
        faults.lacking(alloc, end);
        return Ok(None);
    };
    let left = read_expression(alloc, first, faults)?;
    let Some((second, more)) = parted(rest) else {
        faults.lacking(alloc, end);
        return Ok(None);
    };
    let right = read_expression(alloc, second, faults)?;
    let sides = pair(left, right);
    let none_left = more.is_empty();
    Ok(provided(alloc, none_left, start, sides, faults))
}

/// `(REL EXPR EXPR)`.
#[tactic(auto, unfolding(crate::specs::Condition::comparison))]
fn read_comparison(
    alloc: Global,
    start: u32,
    end: u32,
    head: &Tree,
    parts: &[Tree],
    faults: &mut FirstFault,
) -> Result<Option<Items<CondAst>>, AllocError>
    ensures { Reads (condition.comparison start end head.now parts.now) faults.old faults.new result }
{
    let Some((left, right)) = read_sides(alloc, start, end, parts, faults)? else {
        return Ok(None);
    };
    let rel = make_spot(alloc, head)?;
    let leaves = one_leaf(alloc, CondAst::Compare { rel, left, right })?;
    Ok(Some(leaves))
}

/// `(= TERM TERM)`, or else a comparison.
fn read_equality(
    alloc: Global,
    start: u32,
    end: u32,
    head: &Tree,
    parts: &[Tree],
    faults: &mut FirstFault,
) -> Result<Option<Items<CondAst>>, AllocError>
    ensures { Reads (condition.equality start end head.now parts.now (condition.equal_sides parts.now)) faults.old faults.new result }
{
    match equal_sides(parts) {
        Some((left, right)) => {
            let leaves = same_leaf(alloc, true, left, right)?;
            Ok(Some(leaves))
        }
        None => read_comparison(alloc, start, end, head, parts, faults),
    }
}

/// A fault at a word that stands for a feature.
#[tactic(auto, unfolding(pddl_form::specs::Judged::noted))]
pub fn note_unread<T>(
    alloc: Global,
    head: &Tree,
    faults: &mut FirstFault,
) -> Result<Option<T>, AllocError>
    ensures { Reads (condition.not_read head.now) faults.old faults.new result }
{
    faults.feature(alloc, head.start(), word(head))?;
    Ok(None)
}

fn read_negated_equality(
    alloc: Global,
    not: &Tree,
    parts: &[Tree],
    faults: &mut FirstFault,
) -> Result<Option<Items<CondAst>>, AllocError>
    ensures { Reads (condition.negated_equality not.now (condition.equal_sides parts.now)) faults.old faults.new result }
{
    match equal_sides(parts) {
        Some((left, right)) => {
            let leaves = same_leaf(alloc, false, left, right)?;
            Ok(Some(leaves))
        }
        None => note_unread(alloc, not, faults),
    }
}

#[tactic(auto, unfolding(pddl_form::specs::Judged::noted))]
fn read_negated_list(
    alloc: Global,
    not: &Tree,
    end: u32,
    items: &[Tree],
    faults: &mut FirstFault,
) -> Result<Option<Items<CondAst>>, AllocError>
    ensures { Reads (condition.negated_list not.now end items.now) faults.old faults.new result }
{
    let [head, parts @ ..] = items else {
        faults.lacking(alloc, end);
        return Ok(None);
    };
    match find_head(word(head)) {
        Head::Predicate => read_literal(alloc, false, head, parts, faults),
        Head::Equal => read_negated_equality(alloc, not, parts, faults),
        Head::And | Head::Not | Head::Order | Head::Unread | Head::Other => {
            note_unread(alloc, not, faults)
        }
    }
}

/// What stands behind the word `not`.
#[tactic(auto, unfolding(crate::specs::Condition::negated, pddl_form::specs::Judged::noted))]
fn read_negated(
    alloc: Global,
    not: &Tree,
    tree: &Tree,
    faults: &mut FirstFault,
) -> Result<Option<Items<CondAst>>, AllocError>
    ensures { Reads (condition.negated not.now tree.now) faults.old faults.new result }
{
    match tree {
        Tree::Word { start, .. } => {
            faults.misshapen(alloc, *start);
            Ok(None)
        }
        Tree::List { end, items, .. } => {
            read_negated_list(alloc, not, *end, items.as_slice(), faults)
        }
    }
}

/// Whether `not` isn't read before this tree.
#[tactic(auto, unfolding(crate::specs::Condition::is_unread_negation))]
fn is_unread_negation(tree: &Tree) -> bool
    ensures { result ≡ condition.is_unread_negation tree.now }
{
    let Tree::List { items, .. } = tree else {
        return false;
    };
    let [head, parts @ ..] = items.as_slice() else {
        return false;
    };
    match find_head(word(head)) {
        Head::Predicate => false,
        Head::Equal => equal_sides(parts).is_none(),
        Head::And | Head::Not | Head::Order | Head::Unread | Head::Other => true,
    }
}

/// Whether these trees may stand behind the one that `not` stands before.
fn may_follow(tree: &Tree, more: &[Tree]) -> bool
    ensures { result ≡ condition.may_follow tree.now more.now }
{
    is_unread_negation(tree) || more.is_empty()
}

/// `(not CONDITION)`, of which the condition is given.
fn read_negation(
    alloc: Global,
    start: u32,
    end: u32,
    not: &Tree,
    parts: &[Tree],
    faults: &mut FirstFault,
) -> Result<Option<Items<CondAst>>, AllocError>
    ensures { Reads (condition.negation (condition.negated not.now) start end parts.now) faults.old faults.new result }
{
    let Some((first, more)) = parted(parts) else {
        faults.lacking(alloc, end);
        return Ok(None);
    };
    let leaves = read_negated(alloc, not, first, faults)?;
    let fits = may_follow(first, more);
    Ok(provided(alloc, fits, start, leaves, faults))
}

#[cycle(condition)]
fn read_leaves(
    alloc: Global,
    trees: &[Tree],
    faults: &mut FirstFault,
) -> Result<Option<Items<CondAst>>, AllocError>
    ensures { Reads (mapped joined (each (map condition.condition_form trees.now))) faults.old faults.new result }
{
    let mut found = Some(Items::new(alloc));
    for tree in trees {
        let more = read_condition(alloc, tree, faults)?;
        add_all(&mut found, more)?;
    }
    Ok(found)
}

/// A list with this head and these trees behind it.
#[cycle(condition)]
#[tactic(auto, unfolding(pddl_form::specs::Judged::noted, crate::specs::Condition::headed_condition))]
fn read_headed(
    alloc: Global,
    start: u32,
    end: u32,
    head: &Tree,
    parts: &[Tree],
    faults: &mut FirstFault,
) -> Result<Option<Items<CondAst>>, AllocError>
    ensures { Reads (condition.headed_condition start end head.now parts.now (map condition.condition_form parts.now)) faults.old faults.new result }
{
    match find_head(word(head)) {
        Head::And => read_leaves(alloc, parts, faults),
        Head::Not => read_negation(alloc, start, end, head, parts, faults),
        Head::Equal => read_equality(alloc, start, end, head, parts, faults),
        Head::Order => read_comparison(alloc, start, end, head, parts, faults),
        Head::Unread => note_unread(alloc, head, faults),
        Head::Predicate => read_literal(alloc, true, head, parts, faults),
        Head::Other => {
            faults.misshapen(alloc, start);
            Ok(None)
        }
    }
}

#[cycle(condition)]
#[tactic(auto, unfolding(pddl_form::specs::Judged::noted))]
fn read_list(
    alloc: Global,
    start: u32,
    end: u32,
    items: &[Tree],
    faults: &mut FirstFault,
) -> Result<Option<Items<CondAst>>, AllocError>
    ensures { Reads (condition.condition_list start end items.now (map condition.condition_form items.now)) faults.old faults.new result }
{
    let [head, parts @ ..] = items else {
        return Ok(Some(Items::new(alloc)));
    };
    read_headed(alloc, start, end, head, parts, faults)
}

/// A condition.
#[cycle(condition)]
#[tactic(auto, unfolding(pddl_form::specs::Judged::noted))]
pub fn read_condition(
    alloc: Global,
    tree: &Tree,
    faults: &mut FirstFault,
) -> Result<Option<Items<CondAst>>, AllocError>
    ensures { Reads (condition.condition_form tree.now) faults.old faults.new result }
{
    match tree {
        Tree::Word { start, .. } => {
            faults.misshapen(alloc, *start);
            Ok(None)
        }
        Tree::List { start, end, items } => {
            read_list(alloc, *start, *end, items.as_slice(), faults)
        }
    }
}

fn read_equality_behind_not(
    alloc: Global,
    not: &Tree,
    start: u32,
    parts: &[Tree],
    faults: &mut FirstFault,
) -> Result<Option<Call>, AllocError>
    ensures { Reads (condition.negated_atom_equality not.now start (condition.equal_sides parts.now)) faults.old faults.new result }
{
    match equal_sides(parts) {
        Some(_) => {
            faults.misshapen(alloc, start);
            Ok(None)
        }
        None => note_unread(alloc, not, faults),
    }
}

#[tactic(auto, unfolding(pddl_form::specs::Judged::noted))]
fn read_list_behind_not(
    alloc: Global,
    sort: Sort,
    not: &Tree,
    start: u32,
    end: u32,
    items: &[Tree],
    faults: &mut FirstFault,
) -> Result<Option<Call>, AllocError>
    ensures { Reads (condition.negated_atom_list sort not.now start end items.now) faults.old faults.new result }
{
    let [head, parts @ ..] = items else {
        faults.lacking(alloc, end);
        return Ok(None);
    };
    match find_head(word(head)) {
        Head::Predicate => read_arguments(alloc, sort, head, parts, faults),
        Head::Equal => read_equality_behind_not(alloc, not, start, parts, faults),
        Head::And | Head::Not | Head::Order | Head::Unread | Head::Other => {
            note_unread(alloc, not, faults)
        }
    }
}

/// What stands behind the word `not` where only atoms may be negated: an atom, with arguments of a sort.
#[tactic(auto, unfolding(crate::specs::Condition::negated_atom, pddl_form::specs::Judged::noted))]
fn read_atom_behind_not(
    alloc: Global,
    sort: Sort,
    not: &Tree,
    tree: &Tree,
    faults: &mut FirstFault,
) -> Result<Option<Call>, AllocError>
    ensures { Reads (condition.negated_atom sort not.now tree.now) faults.old faults.new result }
{
    match tree {
        Tree::Word { start, .. } => {
            faults.misshapen(alloc, *start);
            Ok(None)
        }
        Tree::List { start, end, items } => {
            read_list_behind_not(alloc, sort, not, *start, *end, items.as_slice(), faults)
        }
    }
}

/// `(not ATOM)`, of which the atom is given.
pub fn read_negated_atom(
    alloc: Global,
    sort: Sort,
    start: u32,
    end: u32,
    not: &Tree,
    parts: &[Tree],
    faults: &mut FirstFault,
) -> Result<Option<Call>, AllocError>
    ensures { Reads (condition.negation (condition.negated_atom sort not.now) start end parts.now) faults.old faults.new result }
{
    let Some((first, more)) = parted(parts) else {
        faults.lacking(alloc, end);
        return Ok(None);
    };
    let call = read_atom_behind_not(alloc, sort, not, first, faults)?;
    let fits = may_follow(first, more);
    Ok(provided(alloc, fits, start, call, faults))
}
