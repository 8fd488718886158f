//! The types of a domain: their names, numbered by first sight behind `object`, and the type above each. Begin with
//! `type_table`, which numbers them, and then `resolve_types`.
ghost use Rattle.std.specs.Prelude.{◌≡◌, ◌<◌, ◌^◌, List, ◌∷◌, map, length, replicate, IfOk, OnOk};
ghost use Rattle.pddl_form.specs.declared.typed.Typed.{Typed};
ghost use Rattle.pddl_task.specs.Task.{names_of, parents};
ghost use Rattle.typing_uses.specs.Scope.{texts, sighted};
ghost use Rattle.typing_names.specs.Domain.{type_names, types_in};
ghost use Rattle.typing_names.specs.TypeNames.{number_above, parent_in};

use crate::declare::add_name;
use hierarchy::Hierarchy;
use name_table::NameTable;
use pddl_form::{Spot, Typed};
use pddl_task::TypeName;
use sexpr::Text;
use sqlite_items::Items;
use std::alloc::{AllocError, Global};

fn add_names(table: &mut NameTable, spots: &[Spot]) -> Result<(), AllocError>
    ensures { OnOk result (table.new ≡ sighted table.old (texts spots.now)) }
{
    for spot in spots {
        add_name(table, spot.text.as_str())?;
    }
    Ok(())
}

/// The types by number.
pub fn type_table(alloc: Global, types: &[Typed]) -> Result<NameTable, AllocError>
    ensures { IfOk result (λ table. table ≡ type_names types.now) }
{
    let mut table = NameTable::new(alloc);
    add_name(&mut table, "object")?;
    for one in types {
        add_name(&mut table, one.name.text.as_str())?;
        add_names(&mut table, one.types.as_slice())?;
    }
    Ok(table)
}

/// The number of the type that is written behind a name.
fn number_above(table: &NameTable, written: &[Spot]) -> u32
    ensures { result ≡ number_above table.now written.now }
{
    let found = match written {
        [] => table.find("object"),
        [first, ..] => table.find(first.text.as_str()),
    };
    found.unwrap_or(0)
}

/// One more type in front of those whose parents are known.
fn set_parent(table: &NameTable, parents: &mut Vec<u32>, one: &Typed)
    requires { length parents.old.items ≡ length table.now }
    ensures { (types : List Typed) → parents.old.items ≡ map (parent_in types table.now) table.now → parents.new.items ≡ map (parent_in (one.now ∷ types) table.now) table.now }
{
    let above = number_above(table, one.types.as_slice());
    let Some(t) = table.find(one.name.text.as_str()) else {
        return;
    };
    parents[t as usize] = above;
}

/// So many times this number.
fn repeated(alloc: Global, number: u32, count: usize) -> Result<Vec<u32>, AllocError>
    ensures { IfOk result (λ v. v.items ≡ replicate count number) }
{
    vec![in alloc; number; count]
}

/// The type above each: what a name is listed with first counts, so the list is gone through from its end.
fn find_parents(alloc: Global, table: &NameTable, types: &[Typed]) -> Result<Vec<u32>, AllocError>
    ensures above { IfOk result (λ v. v.items ≡ map (parent_in types.now table.now) table.now) }
    ensures few { IfOk result (λ v. length v.items < 2 ^ 32) }
{
    let root = number_above(table, &[]);
    let mut parents = repeated(alloc, root, table.len() as usize)?;
    for passed in 0..types.len() {
        let one = &types[types.len() - passed - 1];
        set_parent(table, &mut parents, one);
    }
    Ok(parents)
}

fn list_types(
    alloc: Global,
    table: &NameTable,
    above: &[u32],
) -> Result<Items<TypeName>, AllocError>
    requires { length above.now ≡ length table.now }
    ensures names { IfOk result (λ types. names_of types ≡ table.now) }
    ensures above { IfOk result (λ types. parents types ≡ above.now) }
{
    let mut types = Items::new(alloc);
    for t in 0..table.len() {
        let name = Text::from_string(String::from_str(alloc, table.name(t))?);
        let parent = above[t as usize];
        types.push(TypeName { name, parent })?;
    }
    Ok(types)
}

/// The types with those above them.
pub fn resolve_types(
    alloc: Global,
    table: &NameTable,
    types: &[Typed],
) -> Result<(Items<TypeName>, Hierarchy), AllocError>
    requires { table.now ≡ type_names types.now }
    ensures types { IfOk result (λ made. made.0 ≡ types_in types.now) }
    ensures above { IfOk result (λ made. made.1 ≡ parents (types_in types.now)) }
{
    let above = find_parents(alloc, table, types)?;
    let named = list_types(alloc, table, &above)?;
    let hierarchy = Hierarchy::new(alloc, above)?;
    Ok((named, hierarchy))
}
