//! The literals and the comparisons of a draft, and what becomes of atoms.
ghost use Rattle.std.specs.Prelude.{◌≡◌, IfOk, OnOk};
ghost use Rattle.std.specs.List.{filter_map};
ghost use Rattle.lin.specs.Operations.{AnswersInMemory};
ghost use Rattle.task_core.specs.Step.{is_in};
ghost use Rattle.ground_numbers.specs.Numbers.{is_listed, with_seen};
ghost use Rattle.ground_action.specs.GroundAction.{same_literal};
ghost use Rattle.ground_action.specs.Leaves.{compared_parts};
ghost use Rattle.ground_parts.specs.Forms.{comparison_made};
ghost use Rattle.ground_draft.specs.inside.Lists as lists;

use crate::leaves::Leaf;
use crate::moves::Move;
use crate::rising::rising;
use ground_parts::{Compared, Part, compare};
use lin::{Cmp, Lin, LinFail};
use pddl_task::Rel;
use sqlite_items::Items;
use std::alloc::{AllocError, Global};

// ---- literals
fn is_literal_in(lits: &[(u64, bool)], lit: (u64, bool)) -> bool
    ensures { result ≡ is_listed same_literal lits.now lit }
{
    for other in lits {
        if other.0 == lit.0 && other.1 == lit.1 {
            return true;
        }
    }
    false
}

pub(crate) fn put_literal(lits: &mut Items<(u64, bool)>, lit: (u64, bool)) -> Result<(), AllocError>
    ensures { OnOk result (lits.new ≡ with_seen same_literal lits.old lit) }
{
    if !is_literal_in(lits.as_slice(), lit) {
        lits.push(lit)?;
    }
    Ok(())
}

fn add_literal(lits: &mut Items<(u64, bool)>, leaf: &Leaf) -> Result<(), AllocError>
    ensures { OnOk result (lits.new ≡ lists.with_literal lits.old leaf.now) }
{
    match leaf {
        Leaf::Literal(number, sign) => put_literal(lits, (*number, *sign)),
        _ => Ok(()),
    }
}

/// The literals in text order, a repeated one once.
pub(crate) fn literals(alloc: Global, leaves: &[Leaf]) -> Result<Items<(u64, bool)>, AllocError>
    ensures { IfOk result (λ lits. lits ≡ lists.literals_in leaves.now) }
{
    let mut lits = Items::new(alloc);
    for leaf in leaves {
        add_literal(&mut lits, leaf)?;
    }
    Ok(lits)
}

// ---- comparisons
fn compare_sides(alloc: Global, rel: Rel, left: &Part, right: &Part) -> Result<Compared, LinFail>
    ensures { AnswersInMemory (lists.leaf_ops (Leaf.Sides rel left.now right.now)) (comparison_made (compared_parts rel (lists.part_from left.now) (lists.part_from right.now))) result }
{
    compare(alloc, rel, left, right)
}

pub(crate) fn put_compared(
    cmps: &mut Items<(Lin, Cmp)>,
    compared: Compared,
) -> Result<(), AllocError>
    ensures { OnOk result (cmps.new ≡ lists.left_over cmps.old compared) }
{
    match compared {
        Compared::Settled(_) => {}
        Compared::Left(lin, cmp) => cmps.push((lin, cmp))?,
    }
    Ok(())
}

pub(crate) fn compare_leaf(alloc: Global, leaf: &Leaf) -> Result<Compared, LinFail>
    ensures { AnswersInMemory (lists.leaf_ops leaf.now) (lists.leaf_compared leaf.now) result }
{
    match leaf {
        Leaf::Sides(rel, left, right) => compare_sides(alloc, *rel, left, right),
        _ => Ok(Compared::Settled(true)),
    }
}

/// The comparisons that aren't settled, in text order.
pub(crate) fn comparisons(alloc: Global, leaves: &[Leaf]) -> Result<Items<(Lin, Cmp)>, LinFail>
    ensures { AnswersInMemory (lists.comparisons_ops_in leaves.now) (lists.comparisons_in leaves.now) result }
{
    let mut cmps = Items::new(alloc);
    for leaf in leaves {
        let compared = compare_leaf(alloc, leaf)?;
        put_compared(&mut cmps, compared)?;
    }
    Ok(cmps)
}

// ---- atoms
fn put_at(want: bool, next: &Move) -> Option<u64>
    ensures { result ≡ lists.put_at want next.now }
{
    match next {
        Move::Put(sign, number) => { if *sign == want { Some(*number) } else { None } }
        Move::Change(_, _) => None,
    }
}

/// The atoms that become true, or false, in text order.
fn put_atoms(alloc: Global, want: bool, moves: &[Move]) -> Result<Items<u64>, AllocError>
    ensures { IfOk result (λ numbers. numbers ≡ filter_map (lists.put_at want) moves.now) }
{
    let mut numbers = Items::new(alloc);
    for next in moves {
        if let Some(number) = put_at(want, next) {
            numbers.push(number)?;
        }
    }
    Ok(numbers)
}

/// The added atoms, in rising number.
pub(crate) fn added(alloc: Global, moves: &[Move]) -> Result<Items<u64>, AllocError>
    ensures { IfOk result (λ numbers. numbers ≡ lists.added_in moves.now) }
{
    let numbers = put_atoms(alloc, true, moves)?;
    rising(alloc, numbers.as_slice())
}

fn is_number_in(numbers: &[u64], n: u64) -> bool
    ensures { result ≡ is_in n numbers.now }
{
    for m in numbers {
        if *m == n {
            return true;
        }
    }
    false
}

/// The numbers that aren't among others.
fn without(alloc: Global, numbers: &[u64], others: &[u64]) -> Result<Items<u64>, AllocError>
    ensures { IfOk result (λ left. left ≡ filter_map (lists.unless_in others.now) numbers.now) }
{
    let mut left = Items::new(alloc);
    for n in numbers {
        if !is_number_in(others, *n) {
            left.push(*n)?;
        }
    }
    Ok(left)
}

/// The deleted atoms that aren't added, in rising number.
pub(crate) fn deleted(
    alloc: Global,
    moves: &[Move],
    added: &[u64],
) -> Result<Items<u64>, AllocError>
    requires { added.now ≡ lists.added_in moves.now }
    ensures { IfOk result (λ numbers. numbers ≡ lists.deleted_in moves.now) }
{
    let numbers = put_atoms(alloc, false, moves)?;
    let numbers = without(alloc, numbers.as_slice(), added)?;
    rising(alloc, numbers.as_slice())
}

// ---- functions
fn changed_at(next: &Move) -> Option<u64>
    ensures { result ≡ lists.changed_at next.now }
{
    match next {
        Move::Put(_, _) => None,
        Move::Change(number, _) => Some(*number),
    }
}

/// The changed functions, in rising number.
pub(crate) fn changed(alloc: Global, moves: &[Move]) -> Result<Items<u64>, AllocError>
    ensures { IfOk result (λ numbers. numbers ≡ lists.changed_in moves.now) }
{
    let mut numbers = Items::new(alloc);
    for next in moves {
        if let Some(number) = changed_at(next) {
            numbers.push(number)?;
        }
    }
    rising(alloc, numbers.as_slice())
}
