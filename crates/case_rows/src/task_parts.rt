//! What a task has in it: its objects and types, what is changing, and its leaves.
use pddl_task::{Cond, Effect, Fact, Given, Task};
use std::alloc::{AllocError, Global};

/// An object's name, and whether it has the type of this name.
fn object(alloc: Global, task: &Task, number: &str, of: &str) -> Result<String, AllocError> {
    let o = number.parse::<u32>().unwrap_or(u32::MAX);
    if o >= task.objects() {
        return String::from_str(alloc, "no such object");
    }
    let name = task.object_name(o);
    let is_of = task.type_named(of) == Some(task.object_type(o));
    format!(in alloc; "{name} {is_of}")
}

/// Whether a type is another or below it.
fn below(alloc: Global, task: &Task, lower: &str, upper: &str) -> Result<String, AllocError> {
    match (task.type_named(lower), task.type_named(upper)) {
        (Some(t), Some(u)) => task.below(t, u).to_string(alloc),
        _ => String::from_str(alloc, "no such type"),
    }
}

/// Which predicates and which functions are changing.
fn changing(alloc: Global, task: &Task) -> Result<String, AllocError> {
    let mut out = String::new(alloc);
    for p in 0..task.preds() {
        out.push_str(if task.changing_pred(p) {
            "true "
        } else {
            "false "
        })?;
    }
    out.push_str("|")?;
    for f in 0..task.funcs() {
        out.push_str(if task.changing_func(f) {
            " true"
        } else {
            " false"
        })?;
    }
    Ok(out)
}

/// Whether these types are just those of the names.
fn are_named(task: &Task, types: &[u32], names: &str) -> bool {
    let mut names = names.split(' ');
    for of in types {
        let named = task.type_named(names.next().unwrap_or(""));
        if named != Some(*of) {
            return false;
        }
    }
    names.next().is_none()
}

/// The first action's name, and whether its parameter has just the types of these names.
fn parameter(alloc: Global, task: &Task, number: &str, names: &str) -> Result<String, AllocError> {
    let place = number.parse::<usize>().unwrap_or(usize::MAX);
    if let Some(action) = task.actions().first() {
        if let Some(types) = action.params.get(place) {
            let are_named = are_named(task, types.as_slice(), names);
            let name = action.name.as_str();
            return format!(in alloc; "{name} {are_named}");
        }
    }
    String::from_str(alloc, "no such parameter")
}

fn add_conditions(alloc: Global, out: &mut String, leaves: &[Cond]) -> Result<(), AllocError> {
    for leaf in leaves {
        let shown = match leaf {
            Cond::Lit { pos, pred, args } => {
                format!(in alloc; " | {pos} {pred} {:?}", args.as_slice())?
            }
            Cond::Same { pos, left, right } => format!(in alloc; " | {pos} {left:?} {right:?}")?,
            Cond::Compare { rel, .. } => format!(in alloc; " | {rel:?}")?,
        };
        out.push_str(shown.as_str())?;
    }
    Ok(())
}

fn add_effects(alloc: Global, out: &mut String, leaves: &[Effect]) -> Result<(), AllocError> {
    for leaf in leaves {
        let shown = match leaf {
            Effect::Put { pos, pred, args } => {
                format!(in alloc; " | {pos} {pred} {:?}", args.as_slice())?
            }
            Effect::Change { op, func, args, .. } => {
                format!(in alloc; " | {op:?} {func} {:?}", args.as_slice())?
            }
        };
        out.push_str(shown.as_str())?;
    }
    Ok(())
}

fn add_facts(alloc: Global, out: &mut String, facts: &[Fact]) -> Result<(), AllocError> {
    for fact in facts {
        let shown = format!(in alloc; " | {} {:?}", fact.pred, fact.args.as_slice())?;
        out.push_str(shown.as_str())?;
    }
    Ok(())
}

fn add_values(alloc: Global, out: &mut String, values: &[Given]) -> Result<(), AllocError> {
    for given in values {
        let (num, den) = (given.value.num(), given.value.den());
        let shown = format!(in alloc; " | {} {:?} {num}/{den}", given.func, given.args.as_slice())?;
        out.push_str(shown.as_str())?;
    }
    Ok(())
}

/// How many actions; the leaves of their conditions and effects and of the goal; the facts and the values.
fn leaves(alloc: Global, task: &Task) -> Result<String, AllocError> {
    let mut out = task.actions().len().to_string(alloc)?;
    for action in task.actions() {
        add_conditions(alloc, &mut out, action.conds.as_slice())?;
        add_effects(alloc, &mut out, action.effs.as_slice())?;
    }
    add_conditions(alloc, &mut out, task.goal())?;
    add_facts(alloc, &mut out, task.facts())?;
    add_values(alloc, &mut out, task.values())?;
    Ok(out)
}

/// What is asked of a task, by the word of the question.
pub fn answer(
    alloc: Global,
    task: &Task,
    question: &str,
    first: &str,
    second: &str,
) -> Result<String, AllocError> {
    match question {
        "object" => object(alloc, task, first, second),
        "below" => below(alloc, task, first, second),
        "changing" => changing(alloc, task),
        "parameter" => parameter(alloc, task, first, second),
        "leaves" => leaves(alloc, task),
        _ => String::from_str(alloc, "no such question"),
    }
}
