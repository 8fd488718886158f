//! `rollable` on the actions of small tasks.
use super::*;
use frac128::Frac;
use sqlite_items::Items;
use std::alloc::{AllocError, Global};
use std::test::Fail;

/// An action without comparisons and new values, whose amounts are all 1.
fn action(
    alloc: Global,
    lits: &[(u64, bool)],
    adds: &[u64],
    dels: &[u64],
    incs: &[(u64, Frac)],
) -> Result<GAction, AllocError> {
    Ok(GAction {
        lits: Items::from_slice(alloc, lits)?,
        cmps: Items::new(alloc),
        adds: Items::from_slice(alloc, adds)?,
        dels: Items::from_slice(alloc, dels)?,
        incs: Items::from_slice(alloc, incs)?,
        sets: Items::new(alloc),
    })
}

#[test]
fn rolls_what_keeps_its_literals(rt: HostRuntime) -> Result<(), Fail> {
    let one = [(0, Frac::ratio(1, 1))];
    // an increment alone
    assert!(rt; rollable(&action(rt.alloc(), &[], &[], &[], &one)?));
    // it needs an atom, deletes it and adds it again, which is to add it
    assert!(rt; rollable(&action(rt.alloc(), &[(0, true)], &[0], &[], &one)?));
    // it takes the atom away that it needs
    assert!(rt; !rollable(&action(rt.alloc(), &[(0, true)], &[], &[0], &one)?));
    // it adds an atom that has to be false
    assert!(rt; !rollable(&action(rt.alloc(), &[(0, false)], &[0], &[], &one)?));
    // no increment
    assert!(rt; !rollable(&action(rt.alloc(), &[(0, true)], &[2], &[], &[])?));
    Ok(())
}
