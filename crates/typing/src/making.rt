//! The task of the parts that the passes over names made.
ghost use Rattle.std.specs.Prelude.{◌≡◌, true, [], ◌∷◌, ◌++◌, IfErr, IfOk, OnOk};
ghost use Rattle.sexpr.specs.declared.fault.TextRefusal.TheVariants.{Memory};
ghost use Rattle.pddl_task.specs.Numbers.{IsCountable};
ghost use Rattle.typing_names.specs.Items.{item_of, items_of};
ghost use Rattle.typing_names.specs.Problem.{facts_in, values_in};
ghost use Rattle.typing.specs.Link.{task_of};
ghost use Rattle.typing_names.specs.Tables.{parts_of, problem_parts_of};
ghost use Rattle.typing.specs.Resolved.{AreFaultless, AreResolved};

use hierarchy::Hierarchy;
use name_table::NameTable;
use pddl_domain::DomainAst;
use pddl_problem::ProblemAst;
use pddl_task::{Fact, Given, Object, Task, TaskParts};
use sexpr::TextRefusal;
use sqlite_items::Items;
use std::alloc::{AllocError, Global};
use typing_names::{DomainNames, Item, ProblemNames, Tables};

/// Adds the fact of an item that has one.
fn add_fact(alloc: Global, found: &mut Items<Fact>, item: &Item) -> Result<(), AllocError>
    ensures { OnOk result (found.new ≡ found.old ++ facts_in (item_of item.now ∷ [])) }
{
    match item {
        Item::Atom {
            pos: true,
            pred,
            args,
            ..
        } => {
            let args = Items::from_slice(alloc, args.as_slice())?;
            found.push(Fact { pred: *pred, args })
        }
        Item::Atom { pos: false, .. } | Item::Value { .. } => Ok(()),
    }
}

/// The atoms that are true at the start.
fn facts(alloc: Global, items: &[Item]) -> Result<Items<Fact>, AllocError>
    ensures { IfOk result (λ facts. facts ≡ facts_in (items_of items.now)) }
{
    let mut found = Items::new(alloc);
    for item in items {
        add_fact(alloc, &mut found, item)?;
    }
    Ok(found)
}

/// Adds the value of an item that has one.
fn add_value(alloc: Global, found: &mut Items<Given>, item: &Item) -> Result<(), AllocError>
    ensures { OnOk result (found.new ≡ found.old ++ values_in (item_of item.now ∷ [])) }
{
    match item {
        Item::Atom { .. } => Ok(()),
        Item::Value {
            func,
            args,
            amount,
            ..
        } => {
            let args = Items::from_slice(alloc, args.as_slice())?;
            found.push(Given {
                func: *func,
                args,
                value: *amount,
            })
        }
    }
}

/// The values of functions at the start.
fn values(alloc: Global, items: &[Item]) -> Result<Items<Given>, AllocError>
    ensures { IfOk result (λ values. values ≡ values_in (items_of items.now)) }
{
    let mut found = Items::new(alloc);
    for item in items {
        add_value(alloc, &mut found, item)?;
    }
    Ok(found)
}

/// Whether numbers of 32 bits count the things of each kind.
fn is_countable(parts: &TaskParts) -> bool
    ensures { result ≡ true → IsCountable parts.now }
{
    let most = u32::MAX as usize;
    parts.types.len() <= most
        && parts.objects.len() <= most
        && parts.preds.len() <= most
        && parts.funcs.len() <= most
        && parts.actions.len() <= most
}

/// The facts and the values at the start.
fn start(alloc: Global, items: &[Item]) -> Result<(Items<Fact>, Items<Given>), AllocError>
    ensures facts { IfOk result (λ start. start.0 ≡ facts_in (items_of items.now)) }
    ensures values { IfOk result (λ start. start.1 ≡ values_in (items_of items.now)) }
{
    let facts = facts(alloc, items)?;
    let values = values(alloc, items)?;
    Ok((facts, values))
}

/// What a domain declares, with more objects behind its own.
fn with_objects(made: DomainNames, others: Items<Object>) -> Result<DomainNames, AllocError>
    ensures { IfOk result (λ all. all ≡ record made { objects = made.objects ++ others }) }
{
    let mut all = made;
    all.objects.append(others)?;
    Ok(all)
}

/// The parts, whose facts and values are those of the items. What may want memory is done while few things are held.
fn join_parts(
    alloc: Global,
    made: DomainNames,
    more: ProblemNames,
) -> Result<(TaskParts, NameTable, Hierarchy), AllocError>
    ensures parts { IfOk result (λ t. t.0 ≡ task_of (parts_of made) (problem_parts_of more)) }
    ensures names { IfOk result (λ t. t.1 ≡ made.tables.types) }
    ensures above { IfOk result (λ t. t.2 ≡ made.hierarchy) }
{
    let ProblemNames {
        objects: others,
        items,
        goal,
    } = more;
    let (facts, values) = start(alloc, items.as_slice())?;
    let DomainNames {
        types,
        objects,
        preds,
        funcs,
        actions,
        tables,
        hierarchy,
    } = with_objects(made, others)?;
    let parts = TaskParts {
        types,
        objects,
        preds,
        funcs,
        actions,
        facts,
        values,
        goal,
    };
    let Tables { types: names, .. } = tables;
    Ok((parts, names, hierarchy))
}

/// The task of the parts.
pub(crate) fn make_task(
    alloc: Global,
    domain: &DomainAst,
    problem: &ProblemAst,
    made: DomainNames,
    more: ProblemNames,
) -> Result<Task, TextRefusal>
    requires resolved { AreResolved domain.now problem.now made more }
    requires faultless { AreFaultless domain.now problem.now made more }
    ensures made { IfOk result (λ task. task ≡ task_of (parts_of made) (problem_parts_of more)) }
    ensures refused { IfErr result (λ e. e ≡ Memory) }
{
    let (parts, names, hierarchy) = match join_parts(alloc, made, more) {
        Ok(joined) => joined,
        Err(_) => return Err(TextRefusal::Memory),
    };
    if !is_countable(&parts) {
        return Err(TextRefusal::Memory);
    }
    match Task::new(alloc, parts, names, hierarchy) {
        Ok(task) => Ok(task),
        Err(_) => Err(TextRefusal::Memory),
    }
}
