//! Lists of numbers by place.
ghost use Rattle.std.specs.Prelude.{◌≡◌, ◌<◌, ◌≤◌, ℕ, ◌++◌, ◌∷◌, [], map, length, List, IfOk, OnOk};
ghost use Rattle.std.specs.List.{Contains};
ghost use Rattle.clause_index.specs.Places.{at_place, Stay, are_lists};

use std::alloc::{AllocError, Global};

/// As many empty lists as are asked for.
pub(crate) fn empty_lists(alloc: Global, many: usize) -> Result<Vec<Vec<usize>>, AllocError>
    ensures { IfOk result (λ v. length v.items ≡ many) }
{
    let mut lists = Vec::new(alloc);
    for _ in 0..many {
        lists.push(Vec::new(alloc))?;
    }
    Ok(lists)
}

/// The list at a place, empty past the last one.
pub(crate) fn list_at(lists: &Vec<Vec<usize>>, place: usize) -> &[usize]
    ensures { result.now ≡ at_place (are_lists lists.now.items) place }
{
    match lists.get(place) {
        Some(list) => list.as_slice(),
        None => &[],
    }
}

/// One more number in the list at a place.
pub(crate) fn put_at(
    lists: &mut Vec<Vec<usize>>,
    place: usize,
    number: usize,
) -> Result<(), AllocError>
    requires { place < length lists.old.items }
    ensures long { length lists.new.items ≡ length lists.old.items }
    ensures stay { Stay (are_lists lists.old.items) (are_lists lists.new.items) }
    ensures there { OnOk result (Contains (at_place (are_lists lists.new.items) place) number) }
{
    lists[place].push(number)?;
    Ok(())
}

/// One more list.
pub(crate) fn add_list(alloc: Global, lists: &mut Vec<Vec<usize>>) -> Result<(), AllocError>
    ensures longer { OnOk result (length lists.old.items < length lists.new.items) }
    ensures stay { Stay (are_lists lists.old.items) (are_lists lists.new.items) }
    ensures same { length lists.old.items ≤ length lists.new.items }
{
    lists.push(Vec::new(alloc))?;
    Ok(())
}
