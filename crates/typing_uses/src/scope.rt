//! Names in use: each is a number, or a fault where it isn't declared. Begin with `find_name`.
ghost use Rattle.pddl_form.specs.Reading.{IsRead, Reads};
ghost use Rattle.pddl_form.specs.Judged.{each, mapped};
ghost use Rattle.std.specs.Prelude.{map};
ghost use Rattle.typing_uses.specs.Scope as scope;
ghost use Rattle.typing_uses.specs.Names.{scope_of};

use crate::fault::note_unknown;
use name_table::NameTable;
use pddl_form::{FirstFault, Sort, Spot, add, takes};
use pddl_task::Term;
use sqlite_items::Items;
use std::alloc::{AllocError, Global};

/// The declared names of each space; the parameters are those of one action, and none elsewhere.
#[derive(Clone, Copy)]
pub struct Names<'a> {
    pub types: &'a NameTable,
    pub objects: &'a NameTable,
    pub preds: &'a NameTable,
    pub funcs: &'a NameTable,
    pub params: &'a NameTable,
}

/// The number of a name.
#[tactic(auto, unfolding(crate::specs::Scope::named, pddl_form::specs::Judged::noted))]
pub fn find_name(
    alloc: Global,
    names: &NameTable,
    spot: &Spot,
    faults: &mut FirstFault,
) -> Option<u32>
    ensures { IsRead (scope.named names.now spot.now) faults.old faults.new result }
{
    let found = names.find(spot.text.as_str());
    if found.is_none() {
        note_unknown(alloc, spot.place, faults);
    }
    found
}

pub fn find_names(
    alloc: Global,
    names: &NameTable,
    spots: &[Spot],
    faults: &mut FirstFault,
) -> Result<Option<Items<u32>>, AllocError>
    ensures { Reads (each (map (scope.named names.now) spots.now)) faults.old faults.new result }
{
    let mut found = Some(Items::new(alloc));
    for spot in spots {
        let one = find_name(alloc, names, spot, faults);
        add(&mut found, one)?;
    }
    Ok(found)
}

fn find_param(
    alloc: Global,
    params: &NameTable,
    spot: &Spot,
    faults: &mut FirstFault,
) -> Option<Term>
    ensures { IsRead (mapped Term.Param (scope.named params.now spot.now)) faults.old faults.new result }
{
    let Some(param) = find_name(alloc, params, spot, faults) else {
        return None;
    };
    Some(Term::Param(param))
}

fn find_object(
    alloc: Global,
    objects: &NameTable,
    spot: &Spot,
    faults: &mut FirstFault,
) -> Option<Term>
    ensures { IsRead (mapped Term.Object (scope.named objects.now spot.now)) faults.old faults.new result }
{
    let Some(object) = find_name(alloc, objects, spot, faults) else {
        return None;
    };
    Some(Term::Object(object))
}

/// A parameter or an object.
pub fn find_term(alloc: Global, names: &Names, spot: &Spot, faults: &mut FirstFault) -> Option<Term>
    ensures { IsRead (scope.term_named (scope_of names.now) spot.now) faults.old faults.new result }
{
    if takes(Sort::Variable, spot.text.as_str()) {
        find_param(alloc, names.params, spot, faults)
    } else {
        find_object(alloc, names.objects, spot, faults)
    }
}

pub fn find_terms(
    alloc: Global,
    names: &Names,
    spots: &[Spot],
    faults: &mut FirstFault,
) -> Result<Option<Items<Term>>, AllocError>
    ensures { Reads (scope.terms_named (scope_of names.now) spots.now) faults.old faults.new result }
{
    let mut found = Some(Items::new(alloc));
    for spot in spots {
        let one = find_term(alloc, names, spot, faults);
        add(&mut found, one)?;
    }
    Ok(found)
}
