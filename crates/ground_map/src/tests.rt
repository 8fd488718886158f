//! Values of (total), which has head 0, and of (at x ..), which has head 1, at numbers.
ghost use Rattle.std.specs.Prelude.{reverse};

use crate::{GroundMap, Listed};
use std::alloc::AllocError;

#[test]
fn values_are_put_and_found(rt: HostRuntime) -> Result<(), AllocError> {
    let mut map: GroundMap<u64> = GroundMap::new(rt.alloc(), 2)?;
    assert_eq!(rt; map.get(1, &[3]), None);
    let inserted: [(u32, &[u32], u64); 4] = [
        (0, &[], 5),
        (1, &[3], 7),
        (1, &[3], 8),
        (1, &[3, 3], 9),
    ];
    for (head, args, value) in inserted {
        if (head as usize) < map.heads() {
            map.insert(head, args, value)?;
        }
    }
    if map.get(1, &[3, 3]).is_some() {
        map.put(1, &[3, 3], 6);
    }
    assert_eq!(rt; map.heads(), 2);
    let rows: [(u32, &[u32], Option<u64>); 7] = [
        (0, &[], Some(5)),
        (1, &[3], Some(8)),
        (1, &[3, 3], Some(6)),
        (1, &[], None),
        (1, &[3, 3, 3], None),
        (0, &[3], None),
        (2, &[], None),
    ];
    for (head, args, value) in rows {
        assert_eq!(rt; map.get(head, args), value, "{head} {args:?}");
    }
    Ok(())
}

/// Arguments in the order of falling numbers.
#[derive(Debug, Drop)]
struct Falling {
    items: Vec<u32>,
}

impl Listed for Falling {
    ghost items = { λ f. reverse f.items.items };

    fn len(&self) -> usize {
        self.items.len()
    }

    fn at(&self, i: usize) -> u32 {
        self.items[self.items.len() - 1 - i]
    }
}

#[test]
fn listed_arguments_are_found(rt: HostRuntime) -> Result<(), AllocError> {
    let mut map: GroundMap<u64> = GroundMap::new(rt.alloc(), 1)?;
    map.include(3)?;
    assert_eq!(rt; map.heads(), 4);
    let inserted: [(&[u32], u64); 3] = [(&[3, 4], 5), (&[4, 3], 6), (&[], 7)];
    for (args, value) in inserted {
        if map.heads() > 3 {
            map.insert(3, args, value)?;
        }
    }
    let mut falling = Falling {
        items: Vec::new(rt.alloc()),
    };
    assert_eq!(rt; map.get_listed(3, &falling), Some(7));
    falling.items.push(3)?;
    assert_eq!(rt; map.get_listed(3, &falling), None);
    falling.items.push(4)?;
    assert_eq!(rt; map.get_listed(3, &falling), Some(6));
    assert_eq!(rt; map.get_listed(2, &falling), None);
    assert_eq!(rt; map.get_listed(4, &falling), None);
    Ok(())
}
