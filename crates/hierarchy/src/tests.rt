//! Hierarchies with and without circles. The expected values are worked out by hand.
use crate::Hierarchy;
use std::alloc::Global;
use std::process::Abort;
use std::test::Fail;

fn hierarchy(rt: &impl Abort, alloc: Global, parents: &[u32]) -> Result<Hierarchy, Fail> {
    let count = parents.len();
    assert!(rt; parents.iter().all(|parent| (*parent as usize) < count));
    assert!(rt; count < 1000);
    let parents = parents.to_vec(alloc)?;
    Ok(Hierarchy::new(alloc, parents)?)
}

/// Checks which types are u or below it.
fn check_below(rt: &impl Abort, types: &Hierarchy, u: u32, expected: &[bool]) {
    assert_eq!(rt; types.len(), expected.len());
    assert!(rt; (u as usize) < types.len());
    for (t, below) in expected.iter().enumerate() {
        assert_eq!(rt; types.below(t as u32, u), *below, "{t} below {u}");
    }
}

#[test]
fn a_tree(rt: HostRuntime) -> Result<(), Fail> {
    // 0 is the root, 1 and 2 are below it, 3 and 4 below 1, 5 below 3
    let types = hierarchy(&rt, rt.alloc(), &[0, 0, 0, 1, 1, 3])?;
    check_below(&rt, &types, 0, &[true, true, true, true, true, true]);
    check_below(&rt, &types, 1, &[false, true, false, true, true, true]);
    check_below(&rt, &types, 2, &[false, false, true, false, false, false]);
    check_below(&rt, &types, 3, &[false, false, false, true, false, true]);
    check_below(&rt, &types, 4, &[false, false, false, false, true, false]);
    check_below(&rt, &types, 5, &[false, false, false, false, false, true]);
    assert!(rt; types.len() == 6);
    assert_eq!(rt; types.parent(5), 3);
    assert!(rt; types.is_own_ancestor(0));
    assert!(rt; !types.is_own_ancestor(5));
    Ok(())
}

#[test]
fn circles(rt: HostRuntime) -> Result<(), Fail> {
    // 1, 2 and 3 are a circle, 4 is below 2, 0 below 4, 6 its own parent, 5 below it
    let types = hierarchy(&rt, rt.alloc(), &[4, 2, 3, 1, 2, 6, 6])?;
    check_below(
        &rt,
        &types,
        0,
        &[true, false, false, false, false, false, false],
    );
    check_below(
        &rt,
        &types,
        1,
        &[true, true, true, true, true, false, false],
    );
    check_below(
        &rt,
        &types,
        2,
        &[true, true, true, true, true, false, false],
    );
    check_below(
        &rt,
        &types,
        3,
        &[true, true, true, true, true, false, false],
    );
    check_below(
        &rt,
        &types,
        4,
        &[true, false, false, false, true, false, false],
    );
    check_below(
        &rt,
        &types,
        5,
        &[false, false, false, false, false, true, false],
    );
    check_below(
        &rt,
        &types,
        6,
        &[false, false, false, false, false, true, true],
    );
    assert!(rt; types.len() == 7);
    let expected = [false, true, true, true, false, false, true];
    for (t, own) in expected.iter().enumerate() {
        assert_eq!(rt; types.is_own_ancestor(t as u32), *own, "{t}");
    }
    Ok(())
}

#[test]
fn a_long_chain(rt: HostRuntime) -> Result<(), Fail> {
    // each type is below those of smaller numbers
    let mut parents = vec![in rt.alloc(); 0]?;
    for parent in 0..99 {
        parents.push(parent)?;
    }
    let types = hierarchy(&rt, rt.alloc(), &parents)?;
    assert!(rt; types.len() == 100);
    for t in 0..100 {
        for u in 0..100 {
            assert_eq!(rt; types.below(t, u), u <= t, "{t} below {u}");
        }
    }
    Ok(())
}

#[test]
fn no_types(rt: HostRuntime) -> Result<(), Fail> {
    assert_eq!(rt; hierarchy(&rt, rt.alloc(), &[])?.len(), 0);
    Ok(())
}
