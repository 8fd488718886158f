//! The spaces of a domain's names: each has a table, and each of its names is to be declared once. Begin with
//! `declare_domain`.
ghost use Rattle.std.specs.Prelude.{◌≡◌, [], ◌++◌, map, IfOk};
ghost use Rattle.pddl_form.specs.Reading.{IsRead, Reads};
ghost use Rattle.typing_uses.specs.Scope.{texts, distinct, declared_again};
ghost use Rattle.typing_names.specs.Faults.{tested};
ghost use Rattle.typing_names.specs.Tables.{scope_in};
ghost use Rattle.typing_names.specs.Domain as domain;

use crate::declare::{declare_actions, declare_heads, declare_typed};
use crate::domain::Tables;
use crate::fault::beside;
use crate::type_names::type_table;
use name_table::NameTable;
use pddl_domain::{ActionAst, DomainAst, Head};
use pddl_form::{FirstFault, Typed};
use std::alloc::{AllocError, Global};

/// Whether each type is listed once.
fn test_types(
    alloc: Global,
    types: &[Typed],
    faults: &mut FirstFault,
) -> Result<Option<()>, AllocError>
    ensures { Reads (tested (declared_again [] (domain.names_of types.now))) faults.old faults.new result }
{
    let mut table = NameTable::new(alloc);
    let new = declare_typed(alloc, &mut table, types, faults)?;
    Ok(new)
}

/// The names of the types, and whether each is listed once.
fn declare_types(
    alloc: Global,
    types: &[Typed],
    faults: &mut FirstFault,
) -> Result<(Option<()>, NameTable), AllocError>
    ensures faults { IfOk result (λ made. IsRead (tested (declared_again [] (domain.names_of types.now))) faults.old faults.new made.0) }
    ensures names { IfOk result (λ made. made.1 ≡ domain.type_names types.now) }
{
    let table = type_table(alloc, types)?;
    let new = test_types(alloc, types, faults)?;
    Ok((new, table))
}

/// The names of the objects, and whether each is declared once.
fn object_names(
    alloc: Global,
    objects: &[Typed],
    faults: &mut FirstFault,
) -> Result<(Option<()>, NameTable), AllocError>
    ensures faults { IfOk result (λ made. IsRead (tested (declared_again [] (domain.names_of objects.now))) faults.old faults.new made.0) }
    ensures names { IfOk result (λ made. made.1 ≡ distinct (texts (domain.names_of objects.now))) }
{
    let mut table = NameTable::new(alloc);
    let new = declare_typed(alloc, &mut table, objects, faults)?;
    Ok((new, table))
}

/// The names of predicates or of functions, and whether each is declared once.
fn head_names(
    alloc: Global,
    heads: &[Head],
    faults: &mut FirstFault,
) -> Result<(Option<()>, NameTable), AllocError>
    ensures faults { IfOk result (λ made. IsRead (tested (declared_again [] (domain.heads_of heads.now))) faults.old faults.new made.0) }
    ensures names { IfOk result (λ made. made.1 ≡ distinct (texts (domain.heads_of heads.now))) }
{
    let mut table = NameTable::new(alloc);
    let new = declare_heads(alloc, &mut table, heads, faults)?;
    Ok((new, table))
}

/// Whether each action is declared once.
fn test_actions(
    alloc: Global,
    actions: &[ActionAst],
    faults: &mut FirstFault,
) -> Result<Option<()>, AllocError>
    ensures { Reads (tested (declared_again [] (map (λ a. a.name) actions.now))) faults.old faults.new result }
{
    let mut table = NameTable::new(alloc);
    let new = declare_actions(alloc, &mut table, actions, faults)?;
    Ok(new)
}

/// The names of the functions, and whether each function and each action is declared once.
fn declare_functions(
    alloc: Global,
    d: &DomainAst,
    faults: &mut FirstFault,
) -> Result<(Option<()>, NameTable), AllocError>
    ensures faults { IfOk result (λ made. IsRead (tested (declared_again [] (domain.heads_of d.now.funcs) ++ declared_again [] (map (λ a. a.name) d.now.actions))) faults.old faults.new made.0) }
    ensures names { IfOk result (λ made. made.1 ≡ distinct (texts (domain.heads_of d.now.funcs))) }
{
    let (new_funcs, funcs) = head_names(alloc, d.funcs.as_slice(), faults)?;
    let new_actions = test_actions(alloc, d.actions.as_slice(), faults)?;
    let both = beside(new_funcs, new_actions);
    Ok((both, funcs))
}

/// The names of the predicates and of the functions, and whether each of them and each action is declared once.
fn declare_signatures(
    alloc: Global,
    d: &DomainAst,
    faults: &mut FirstFault,
) -> Result<(Option<()>, NameTable, NameTable), AllocError>
    ensures faults { IfOk result (λ made. IsRead (tested (declared_again [] (domain.heads_of d.now.preds) ++ (declared_again [] (domain.heads_of d.now.funcs) ++ declared_again [] (map (λ a. a.name) d.now.actions)))) faults.old faults.new made.0) }
    ensures preds { IfOk result (λ made. made.1 ≡ distinct (texts (domain.heads_of d.now.preds))) }
    ensures funcs { IfOk result (λ made. made.2 ≡ distinct (texts (domain.heads_of d.now.funcs))) }
{
    let (new_preds, preds) = head_names(alloc, d.preds.as_slice(), faults)?;
    let (behind, funcs) = declare_functions(alloc, d, faults)?;
    let all = beside(new_preds, behind);
    Ok((all, preds, funcs))
}

/// The names of all but the types, and whether each of them and each action is declared once.
fn declare_others(
    alloc: Global,
    d: &DomainAst,
    faults: &mut FirstFault,
) -> Result<(Option<()>, NameTable, NameTable, NameTable), AllocError>
    ensures faults { IfOk result (λ made. IsRead (tested (declared_again [] (domain.names_of d.now.constants) ++ (declared_again [] (domain.heads_of d.now.preds) ++ (declared_again [] (domain.heads_of d.now.funcs) ++ declared_again [] (map (λ a. a.name) d.now.actions))))) faults.old faults.new made.0) }
    ensures objects { IfOk result (λ made. made.1 ≡ distinct (texts (domain.names_of d.now.constants))) }
    ensures preds { IfOk result (λ made. made.2 ≡ distinct (texts (domain.heads_of d.now.preds))) }
    ensures funcs { IfOk result (λ made. made.3 ≡ distinct (texts (domain.heads_of d.now.funcs))) }
{
    let (new_objects, objects) = object_names(alloc, d.constants.as_slice(), faults)?;
    let (later, preds, funcs) = declare_signatures(alloc, d, faults)?;
    let all = beside(new_objects, later);
    Ok((all, objects, preds, funcs))
}

/// The names of each space, and whether each name is declared once.
pub fn declare_domain(
    alloc: Global,
    d: &DomainAst,
    faults: &mut FirstFault,
) -> Result<(Option<()>, Tables), AllocError>
    ensures faults { IfOk result (λ made. IsRead (tested (domain.domain_again d.now)) faults.old faults.new made.0) }
    ensures names { IfOk result (λ made. scope_in made.1 ≡ domain.domain_scope d.now) }
{
    let (new_types, types) = declare_types(alloc, d.types.as_slice(), faults)?;
    let (later, objects, preds, funcs) = declare_others(alloc, d, faults)?;
    let all = beside(new_types, later);
    Ok((
        all,
        Tables {
            types,
            objects,
            preds,
            funcs,
        },
    ))
}
