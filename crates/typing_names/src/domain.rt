//! The names of a domain: what it declares, with numbers for names. Begin with `resolve_domain`.
ghost use Rattle.std.specs.Prelude.{◌≡◌, true, IfOk, IfSome, IsTrue};
ghost use Rattle.std.specs.List.{list_all};
ghost use Rattle.std.specs.Option.{option_map};
ghost use Rattle.pddl_domain.specs.Grammar.{is_action, is_domain};
ghost use Rattle.pddl_form.specs.Judged.{both};
ghost use Rattle.pddl_form.specs.Parts.{pair};
ghost use Rattle.pddl_form.specs.Reading.{IsRead, Reads};
ghost use Rattle.pddl_task.specs.Task.{parents};
ghost use Rattle.typing_names.specs.Faults.{tested};
ghost use Rattle.typing_names.specs.Tables.{scope_in, parts_of};
ghost use Rattle.typing_names.specs.Domain as domain;

use crate::actions::resolve_actions;
use crate::declared::{resolve_objects, resolve_signatures};
use crate::fault::beside;
use crate::spaces::declare_domain;
use crate::type_names::resolve_types;
use hierarchy::Hierarchy;
use name_table::NameTable;
use pddl_domain::DomainAst;
use pddl_form::{FirstFault, pair};
use pddl_task::{Action, Object, Signature, TypeName};
use sqlite_items::Items;
use std::alloc::{AllocError, Global};
use typing_uses::Names;

/// The names of a domain's spaces.
#[derive(Debug, Drop)]
pub struct Tables {
    pub types: NameTable,
    pub objects: NameTable,
    pub preds: NameTable,
    pub funcs: NameTable,
}

/// What a domain declares, with the names of its spaces and the types above its types.
#[derive(Debug, Drop)]
pub struct DomainNames {
    pub types: Items<TypeName>,
    pub objects: Items<Object>,
    pub preds: Items<Signature>,
    pub funcs: Items<Signature>,
    pub actions: Items<Action>,
    pub tables: Tables,
    pub hierarchy: Hierarchy,
}

/// The objects and the predicates, the functions, and the actions.
type DomainFront = ((Items<Object>, Items<Signature>), Items<Signature>);

/// What a domain declares besides its types, where its names have no fault; the types, and those above them.
type Inside = (
    Option<(DomainFront, Items<Action>)>,
    Items<TypeName>,
    Hierarchy,
);

fn resolve_parts(
    alloc: Global,
    tables: &Tables,
    d: &DomainAst,
    faults: &mut FirstFault,
) -> Result<Option<(DomainFront, Items<Action>)>, AllocError>
    requires { list_all is_action d.now.actions ≡ true }
    ensures { Reads (both pair (both pair (both pair (domain.objects_named tables.now.types d.now.constants) (domain.signatures_named tables.now.types d.now.preds)) (domain.signatures_named tables.now.types d.now.funcs)) (domain.actions_named (scope_in tables.now) d.now.actions)) faults.old faults.new result }
{
    let params = NameTable::new(alloc);
    let names = Names {
        types: &tables.types,
        objects: &tables.objects,
        preds: &tables.preds,
        funcs: &tables.funcs,
        params: &params,
    };
    let objects = resolve_objects(alloc, names.types, d.constants.as_slice(), faults)?;
    let preds = resolve_signatures(alloc, names.types, d.preds.as_slice(), faults)?;
    let funcs = resolve_signatures(alloc, names.types, d.funcs.as_slice(), faults)?;
    let actions = resolve_actions(alloc, &names, d.actions.as_slice(), faults)?;
    let declared = pair(objects, preds);
    let front = pair(declared, funcs);
    Ok(pair(front, actions))
}

/// What a domain declares besides its types, and the types with those above them.
fn resolve_inside(
    alloc: Global,
    tables: &Tables,
    d: &DomainAst,
    faults: &mut FirstFault,
) -> Result<Inside, AllocError>
    requires actions { list_all is_action d.now.actions ≡ true }
    requires types { tables.now.types ≡ domain.type_names d.now.types }
    ensures parts { IfOk result (λ made. IsRead (both pair (both pair (both pair (domain.objects_named tables.now.types d.now.constants) (domain.signatures_named tables.now.types d.now.preds)) (domain.signatures_named tables.now.types d.now.funcs)) (domain.actions_named (scope_in tables.now) d.now.actions)) faults.old faults.new made.0) }
    ensures types { IfOk result (λ made. made.1 ≡ domain.types_in d.now.types) }
    ensures above { IfOk result (λ made. made.2 ≡ parents (domain.types_in d.now.types)) }
{
    let (types, hierarchy) = resolve_types(alloc, &tables.types, d.types.as_slice())?;
    let parts = resolve_parts(alloc, tables, d, faults)?;
    Ok((parts, types, hierarchy))
}

/// What a domain declares, where there are the parts besides its types.
fn domain_of(
    parts: Option<(DomainFront, Items<Action>)>,
    types: Items<TypeName>,
    hierarchy: Hierarchy,
    tables: Tables,
) -> Option<DomainNames>
    ensures parts { option_map parts_of result ≡ option_map (λ p. domain.parts_with types p.0.0.0 p.0.0.1 p.0.1 p.1) parts }
    ensures tables { IfSome result (λ n. n.tables ≡ tables) }
    ensures above { hierarchy ≡ parents types → IfSome result (λ n. n.hierarchy ≡ parents n.types) }
{
    let (front, actions) = parts?;
    let (declared, funcs) = front;
    let (objects, preds) = declared;
    Some(DomainNames {
        types,
        objects,
        preds,
        funcs,
        actions,
        tables,
        hierarchy,
    })
}

/// The whole domain.
pub fn resolve_domain(
    alloc: Global,
    d: &DomainAst,
    faults: &mut FirstFault,
) -> Result<Option<DomainNames>, AllocError>
    requires { IsTrue (is_domain d.now) }
    ensures names { IfOk result (λ made. IsRead (domain.domain_names d.now) faults.old faults.new (option_map parts_of made)) }
    ensures tables { IfOk result (λ made. IfSome made (λ n. scope_in n.tables ≡ domain.domain_scope d.now)) }
    ensures above { IfOk result (λ made. IfSome made (λ n. n.hierarchy ≡ parents n.types)) }
{
    let (new, tables) = declare_domain(alloc, d, faults)?;
    let (found, types, hierarchy) = resolve_inside(alloc, &tables, d, faults)?;
    let parts = beside(new, found);
    Ok(domain_of(parts, types, hierarchy, tables))
}
