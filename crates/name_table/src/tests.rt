//! The names of a task's types, two of them added twice.
use crate::NameTable;
use std::alloc::AllocError;

#[test]
fn names_are_numbered_by_first_sight(rt: HostRuntime) -> Result<(), AllocError> {
    let mut names = NameTable::new(rt.alloc());
    let rows = [
        ("object", true, 1),
        ("truck", true, 2),
        ("object", false, 2),
        ("place", true, 3),
        ("truck", false, 3),
    ];
    for (name, added, len) in rows {
        if names.len() < u32::MAX {
            assert_eq!(rt; names.add(name)?, added, "{name}");
        }
        assert_eq!(rt; names.len(), len, "{name}");
    }
    let numbers = [
        ("object", Some(0)),
        ("truck", Some(1)),
        ("place", Some(2)),
        ("plac", None),
        ("", None),
    ];
    for (name, number) in numbers {
        assert_eq!(rt; names.find(name), number, "{name}");
    }
    if names.len() == 3 {
        assert_eq!(rt; names.name(1), "truck");
    }
    Ok(())
}
