//! What a domain declares besides types: objects, and predicates and functions with the types of their parameters.
//! Begin with `resolve_params`, the parameters of one list.
ghost use Rattle.std.specs.Prelude.{◌≡◌, map, IfOk, OnOk};
ghost use Rattle.pddl_form.specs.Judged.{each};
ghost use Rattle.pddl_form.specs.Reading.{IsRead, Reads};
ghost use Rattle.typing_uses.specs.Scope.{texts, sighted, declared_again};
ghost use Rattle.typing_names.specs.Faults.{beside};
ghost use Rattle.typing_names.specs.Domain as domain;

use crate::declare::declare_typed;
use crate::fault::beside;
use name_table::NameTable;
use pddl_domain::Head;
use pddl_form::{FirstFault, Spot, Typed, add};
use pddl_task::{Object, Signature};
use sexpr::Text;
use sqlite_items::Items;
use std::alloc::{AllocError, Global};
use typing_uses::{find_name, find_names};

pub fn copy_text(alloc: Global, text: &Text) -> Result<Text, AllocError>
    ensures { IfOk result (λ t. t ≡ text.now) }
{
    let copy = String::from_str(alloc, text.as_str())?;
    Ok(Text::from_string(copy))
}

/// The type behind the name of an object; where none is written, `object`, which has the number 0.
#[tactic(auto, unfolding(pddl_form::specs::Judged::noted))]
fn find_written_type(
    alloc: Global,
    types: &NameTable,
    written: &[Spot],
    faults: &mut FirstFault,
) -> Option<u32>
    ensures { IsRead (domain.written_type types.now written.now) faults.old faults.new result }
{
    match written {
        [] => Some(0),
        [first, ..] => find_name(alloc, types, first, faults),
    }
}

fn resolve_object(
    alloc: Global,
    types: &NameTable,
    object: &Typed,
    faults: &mut FirstFault,
) -> Result<Option<Object>, AllocError>
    ensures { Reads (domain.object_named types.now object.now) faults.old faults.new result }
{
    let Some(of) = find_written_type(alloc, types, object.types.as_slice(), faults) else {
        return Ok(None);
    };
    let name = copy_text(alloc, &object.name.text)?;
    Ok(Some(Object { name, of }))
}

pub fn resolve_objects(
    alloc: Global,
    types: &NameTable,
    objects: &[Typed],
    faults: &mut FirstFault,
) -> Result<Option<Items<Object>>, AllocError>
    ensures { Reads (domain.objects_named types.now objects.now) faults.old faults.new result }
{
    let mut found = Some(Items::new(alloc));
    for object in objects {
        let one = resolve_object(alloc, types, object, faults)?;
        add(&mut found, one)?;
    }
    Ok(found)
}

fn or_object(written: Items<u32>) -> Result<Items<u32>, AllocError>
    ensures { IfOk result (λ types. types ≡ domain.or_object written) }
{
    let mut types = written;
    if types.is_empty() {
        types.push(0)?;
    }
    Ok(types)
}

/// The types that a parameter allows.
fn resolve_param(
    alloc: Global,
    types: &NameTable,
    param: &Typed,
    faults: &mut FirstFault,
) -> Result<Option<Items<u32>>, AllocError>
    ensures { Reads (domain.parameter_named types.now param.now) faults.old faults.new result }
{
    let Some(written) = find_names(alloc, types, param.types.as_slice(), faults)? else {
        return Ok(None);
    };
    let allowed = or_object(written)?;
    Ok(Some(allowed))
}

fn resolve_each_param(
    alloc: Global,
    types: &NameTable,
    params: &[Typed],
    faults: &mut FirstFault,
) -> Result<Option<Items<Items<u32>>>, AllocError>
    ensures { Reads (each (map (domain.parameter_named types.now) params.now)) faults.old faults.new result }
{
    let mut found = Some(Items::new(alloc));
    for param in params {
        let one = resolve_param(alloc, types, param, faults)?;
        add(&mut found, one)?;
    }
    Ok(found)
}

/// The parameters of one list, whose names are added to a table.
pub fn resolve_params(
    alloc: Global,
    types: &NameTable,
    table: &mut NameTable,
    params: &[Typed],
    faults: &mut FirstFault,
) -> Result<Option<Items<Items<u32>>>, AllocError>
    ensures params { Reads (beside (declared_again table.old (domain.names_of params.now)) (each (map (domain.parameter_named types.now) params.now))) faults.old faults.new result }
    ensures names { OnOk result (table.new ≡ sighted table.old (texts (domain.names_of params.now))) }
{
    let new = declare_typed(alloc, table, params, faults)?;
    let found = resolve_each_param(alloc, types, params, faults)?;
    Ok(beside(new, found))
}

fn resolve_signature(
    alloc: Global,
    types: &NameTable,
    head: &Head,
    faults: &mut FirstFault,
) -> Result<Option<Signature>, AllocError>
    ensures { Reads (domain.signature_named types.now head.now) faults.old faults.new result }
{
    let mut table = NameTable::new(alloc);
    let Some(params) = resolve_params(alloc, types, &mut table, head.params.as_slice(), faults)?
    else {
        return Ok(None);
    };
    let name = copy_text(alloc, &head.name.text)?;
    Ok(Some(Signature { name, params }))
}

pub fn resolve_signatures(
    alloc: Global,
    types: &NameTable,
    heads: &[Head],
    faults: &mut FirstFault,
) -> Result<Option<Items<Signature>>, AllocError>
    ensures { Reads (domain.signatures_named types.now heads.now) faults.old faults.new result }
{
    let mut found = Some(Items::new(alloc));
    for head in heads {
        let one = resolve_signature(alloc, types, head, faults)?;
        add(&mut found, one)?;
    }
    Ok(found)
}
