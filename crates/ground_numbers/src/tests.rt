//! Numbers of a few things, some of them seen twice or forgotten.
use crate::Numbers;
use std::alloc::AllocError;

#[test]
fn things_are_numbered_by_first_sight(rt: HostRuntime) -> Result<(), AllocError> {
    let mut numbers = Numbers::new(rt.alloc());
    let rows = [
        (3, vec![in rt.alloc(); 1, 2]?, 0),
        (3, vec![in rt.alloc(); 2, 1]?, 1),
        (3, vec![in rt.alloc(); 1, 2]?, 0),
        (1, vec![in rt.alloc(); 2]?, 2),
        (3, vec![in rt.alloc(); 2, 1]?, 1),
        (2, Vec::new(rt.alloc()), 3),
    ];
    for (symbol, args, number) in &rows {
        assert_eq!(rt; numbers.see(*symbol, args)?, *number);
    }
    for (symbol, args, number) in &rows {
        assert_eq!(rt; numbers.number(*symbol, args), Some(*number));
    }
    assert_eq!(rt; numbers.number(1, &[]), None);
    assert_eq!(rt; numbers.len(), 4);
    numbers.forget_from(2);
    assert_eq!(rt; numbers.len(), 2);
    assert_eq!(rt; numbers.number(3, &[2, 1]), Some(1));
    assert_eq!(rt; numbers.number(2, &[]), None);
    assert_eq!(rt; numbers.see(2, &[])?, 2);
    Ok(())
}
