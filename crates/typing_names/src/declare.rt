//! Names that are declared: each gets the next number of its space, and a name that is declared a second time is a fault.
//! Begin with `declare`. A table holds fewer than 2^32 names; where it is full, there is no memory for another.
ghost use Rattle.std.specs.Prelude.{◌≡◌, map, not, is_some, IfOk, OnOk};
ghost use Rattle.name_table.specs.NameTable.{number_in, with_name};
ghost use Rattle.pddl_form.specs.Reading.{Reads};
ghost use Rattle.typing_names.specs.Faults.{tested};
ghost use Rattle.typing_uses.specs.Scope.{texts, sighted, again_behind, declared_again};
ghost use Rattle.typing_names.specs.Domain.{names_of, heads_of};

use crate::fault::{beside, note_again};
use name_table::NameTable;
use pddl_domain::{ActionAst, Head};
use pddl_form::{FirstFault, Spot, Typed};
use std::alloc::{AllocError, Global};

/// Adds a name, and answers whether it is a new one.
pub fn add_name(table: &mut NameTable, name: &str) -> Result<bool, AllocError>
    ensures added { IfOk result (λ added. added ≡ not (is_some (number_in table.old name.now))) }
    ensures names { OnOk result (table.new ≡ with_name table.old name.now) }
{
    if table.len() == u32::MAX {
        return Err(AllocError);
    }
    table.add(name)
}

#[tactic(auto, unfolding(pddl_form::specs::Judged::noted))]
fn declare(
    alloc: Global,
    table: &mut NameTable,
    spot: &Spot,
    faults: &mut FirstFault,
) -> Result<Option<()>, AllocError>
    ensures faults { Reads (tested (again_behind table.old spot.now)) faults.old faults.new result }
    ensures names { OnOk result (table.new ≡ with_name table.old spot.now.text) }
{
    let added = add_name(table, spot.text.as_str())?;
    if added {
        return Ok(Some(()));
    }
    note_again(alloc, spot.place, faults);
    Ok(None)
}

pub fn declare_typed(
    alloc: Global,
    table: &mut NameTable,
    items: &[Typed],
    faults: &mut FirstFault,
) -> Result<Option<()>, AllocError>
    ensures faults { Reads (tested (declared_again table.old (names_of items.now))) faults.old faults.new result }
    ensures names { OnOk result (table.new ≡ sighted table.old (texts (names_of items.now))) }
{
    let mut found = Some(());
    for item in items {
        let one = declare(alloc, table, &item.name, faults)?;
        found = beside(found, one);
    }
    Ok(found)
}

pub fn declare_heads(
    alloc: Global,
    table: &mut NameTable,
    items: &[Head],
    faults: &mut FirstFault,
) -> Result<Option<()>, AllocError>
    ensures faults { Reads (tested (declared_again table.old (heads_of items.now))) faults.old faults.new result }
    ensures names { OnOk result (table.new ≡ sighted table.old (texts (heads_of items.now))) }
{
    let mut found = Some(());
    for item in items {
        let one = declare(alloc, table, &item.name, faults)?;
        found = beside(found, one);
    }
    Ok(found)
}

pub fn declare_actions(
    alloc: Global,
    table: &mut NameTable,
    items: &[ActionAst],
    faults: &mut FirstFault,
) -> Result<Option<()>, AllocError>
    ensures faults { Reads (tested (declared_again table.old (map (λ a. a.name) items.now))) faults.old faults.new result }
    ensures names { OnOk result (table.new ≡ sighted table.old (texts (map (λ a. a.name) items.now))) }
{
    let mut found = Some(());
    for item in items {
        let one = declare(alloc, table, &item.name, faults)?;
        found = beside(found, one);
    }
    Ok(found)
}
