//! The names of a problem: its objects, its initial state and its goal, with numbers for names. Begin with
//! `resolve_problem`.
ghost use Rattle.std.specs.Prelude.{◌≡◌, true, map, IfOk, IsTrue, OnOk};
ghost use Rattle.std.specs.List.{list_all};
ghost use Rattle.std.specs.Option.{option_map};
ghost use Rattle.pddl_condition.specs.Grammar.{is_condition};
ghost use Rattle.pddl_problem.specs.Grammar.{is_problem};
ghost use Rattle.pddl_form.specs.Judged.{both, each};
ghost use Rattle.pddl_form.specs.Parts.{pair};
ghost use Rattle.pddl_form.specs.Reading.{IsRead, Reads};
ghost use Rattle.typing_uses.specs.Scope.{named, declared_again};
ghost use Rattle.typing_names.specs.Faults.{tested};
ghost use Rattle.typing_uses.specs.Names.{scope_of};
ghost use Rattle.typing_names.specs.Tables.{scope_in, with_items, problem_parts_of};
ghost use Rattle.typing_uses.specs.Expressions.{conditions_named};
ghost use Rattle.typing_names.specs.Domain.{names_of, objects_named, domain_scope};
ghost use Rattle.typing_names.specs.Items.{item_of};
ghost use Rattle.typing_names.specs.Problem as problem;

use crate::declare::declare_typed;
use crate::declared::resolve_objects;
use crate::domain::Tables;
use crate::fault::{beside, note_other_domain};
use crate::item::Item;
use frac128::Frac;
use name_table::NameTable;
use pddl_domain::DomainAst;
use pddl_form::{FirstFault, Spot, add, pair};
use pddl_problem::{InitAst, ProblemAst};
use pddl_task::{Cond, Object};
use sqlite_items::Items;
use std::alloc::{AllocError, Global};
use typing_uses::{Names, find_name, find_names, resolve_conditions};

/// What a problem declares.
#[derive(Debug, Drop)]
pub struct ProblemNames {
    pub objects: Items<Object>,
    pub items: Items<Item>,
    pub goal: Items<Cond>,
}

/// The objects, the initial state and the goal.
type ProblemFront = ((Items<Object>, Items<Item>), Items<Cond>);

/// A predicate or a function of objects.
fn resolve_ground(
    alloc: Global,
    table: &NameTable,
    objects: &NameTable,
    name: &Spot,
    args: &[Spot],
    faults: &mut FirstFault,
) -> Result<Option<(u32, Items<u32>)>, AllocError>
    ensures { Reads (both pair (named table.now name.now) (each (map (named objects.now) args.now))) faults.old faults.new result }
{
    let number = find_name(alloc, table, name, faults);
    let args = find_names(alloc, objects, args, faults)?;
    Ok(pair(number, args))
}

fn resolve_atom(
    alloc: Global,
    names: &Names,
    place: u32,
    pos: bool,
    name: &Spot,
    args: &[Spot],
    faults: &mut FirstFault,
) -> Result<Option<Item>, AllocError>
    ensures { IfOk result (λ item. IsRead (both (problem.atom place pos) (named (scope_of names.now).preds name.now) (problem.objects_in (scope_of names.now) args.now)) faults.old faults.new (option_map item_of item)) }
{
    let Some((pred, args)) = resolve_ground(alloc, names.preds, names.objects, name, args, faults)?
    else {
        return Ok(None);
    };
    Ok(Some(Item::Atom {
        place,
        pos,
        pred,
        args,
    }))
}

fn resolve_value(
    alloc: Global,
    names: &Names,
    place: u32,
    amount: Frac,
    name: &Spot,
    args: &[Spot],
    faults: &mut FirstFault,
) -> Result<Option<Item>, AllocError>
    ensures { IfOk result (λ item. IsRead (both (problem.value_with place amount) (named (scope_of names.now).funcs name.now) (problem.objects_in (scope_of names.now) args.now)) faults.old faults.new (option_map item_of item)) }
{
    let Some((func, args)) = resolve_ground(alloc, names.funcs, names.objects, name, args, faults)?
    else {
        return Ok(None);
    };
    Ok(Some(Item::Value {
        place,
        func,
        args,
        amount,
    }))
}

fn resolve_item(
    alloc: Global,
    names: &Names,
    item: &InitAst,
    faults: &mut FirstFault,
) -> Result<Option<Item>, AllocError>
    ensures { IfOk result (λ made. IsRead (problem.item_named (scope_of names.now) item.now) faults.old faults.new (option_map item_of made)) }
{
    match item {
        InitAst::Put {
            pos,
            name,
            args,
            place,
        } => resolve_atom(alloc, names, *place, *pos, name, args.as_slice(), faults),
        InitAst::Value {
            name,
            args,
            value,
            place,
        } => resolve_value(alloc, names, *place, *value, name, args.as_slice(), faults),
    }
}

fn resolve_items(
    alloc: Global,
    names: &Names,
    items: &[InitAst],
    faults: &mut FirstFault,
) -> Result<Option<Items<Item>>, AllocError>
    ensures { IfOk result (λ made. IsRead (each (map (problem.item_named (scope_of names.now)) items.now)) faults.old faults.new (option_map (map item_of) made)) }
{
    let mut found = Some(Items::new(alloc));
    for item in items {
        let one = resolve_item(alloc, names, item, faults)?;
        add(&mut found, one)?;
    }
    Ok(found)
}

fn resolve_parts(
    alloc: Global,
    tables: &Tables,
    p: &ProblemAst,
    faults: &mut FirstFault,
) -> Result<Option<ProblemFront>, AllocError>
    requires { list_all is_condition p.now.goal ≡ true }
    ensures { IfOk result (λ made. IsRead (both pair (both pair (objects_named tables.now.types p.now.objects) (each (map (problem.item_named (scope_in tables.now)) p.now.init))) (conditions_named (scope_in tables.now) p.now.goal)) faults.old faults.new (option_map with_items made)) }
{
    let params = NameTable::new(alloc);
    let names = Names {
        types: &tables.types,
        objects: &tables.objects,
        preds: &tables.preds,
        funcs: &tables.funcs,
        params: &params,
    };
    let objects = resolve_objects(alloc, names.types, p.objects.as_slice(), faults)?;
    let items = resolve_items(alloc, &names, p.init.as_slice(), faults)?;
    let goal = resolve_conditions(alloc, &names, p.goal.as_slice(), faults)?;
    let start = pair(objects, items);
    Ok(pair(start, goal))
}

/// Whether a problem names this domain.
#[tactic(auto, unfolding(pddl_form::specs::Judged::noted))]
fn find_domain(alloc: Global, d: &DomainAst, p: &ProblemAst, faults: &mut FirstFault) -> Option<()>
    ensures { IsRead (tested (problem.domain_faults d.now p.now)) faults.old faults.new result }
{
    if p.domain.text.as_str() == d.name.text.as_str() {
        return Some(());
    }
    note_other_domain(alloc, p.domain.place, faults);
    None
}

/// The whole problem. Its objects are added to those of the domain.
pub fn resolve_problem(
    alloc: Global,
    tables: &mut Tables,
    d: &DomainAst,
    p: &ProblemAst,
    faults: &mut FirstFault,
) -> Result<Option<ProblemNames>, AllocError>
    requires tables { scope_in tables.old ≡ domain_scope d.now }
    requires grammar { IsTrue (is_problem p.now) }
    ensures names { IfOk result (λ made. IsRead (problem.problem_names d.now p.now) faults.old faults.new (option_map problem_parts_of made)) }
    ensures tables { OnOk result (scope_in tables.new ≡ problem.problem_scope d.now p.now) }
{
    let same = find_domain(alloc, d, p, faults);
    let fresh = declare_typed(alloc, &mut tables.objects, p.objects.as_slice(), faults)?;
    let new = beside(same, fresh);
    let parts = resolve_parts(alloc, tables, p, faults)?;
    let Some((start, goal)) = beside(new, parts) else {
        return Ok(None);
    };
    let (objects, items) = start;
    Ok(Some(ProblemNames {
        objects,
        items,
        goal,
    }))
}
