//! Texts of problems: their first faults, and the syntax of those without one.
use crate::forms::{add_typed, tree_of};
use pddl_form::Spot;
use pddl_problem::{InitAst, ProblemAst, read_problem};
use row_files::show_refusal;
use sexpr::{Source, TextRefusal};
use std::alloc::{AllocError, Global};

fn problem(alloc: Global, text: &[u8]) -> Result<ProblemAst, TextRefusal> {
    let tree = tree_of(alloc, Source::Problem, text)?;
    read_problem(alloc, &tree)
}

/// How many objects, items of the initial state and leaves of the goal.
fn counts(alloc: Global, made: &ProblemAst) -> Result<String, AllocError> {
    let objects = made.objects.len();
    let items = made.init.len();
    let leaves = made.goal.len();
    format!(in alloc; "{objects} {items} {leaves}")
}

pub fn answer(alloc: Global, text: &[u8]) -> Result<String, AllocError> {
    match problem(alloc, text) {
        Ok(made) => counts(alloc, &made),
        Err(refusal) => show_refusal(alloc, &refusal, &[], text),
    }
}

/// A name with its place.
fn placed(alloc: Global, name: &Spot) -> Result<String, AllocError> {
    let text = name.text.as_str();
    let place = name.place;
    format!(in alloc; "{text} at byte {place}")
}

/// An item: what it says, how many arguments it has, its value, and its place.
fn item(alloc: Global, item: &InitAst) -> Result<String, AllocError> {
    match item {
        InitAst::Put {
            pos,
            name,
            args,
            place,
        } => format!(in alloc;
            "{pos} {} {} at byte {place}",
            name.text.as_str(),
            args.len()
        ),
        InitAst::Value {
            name,
            args,
            value,
            place,
        } => format!(in alloc;
            "{} {} {}/{} at byte {place}",
            name.text.as_str(),
            args.len(),
            value.num(),
            value.den()
        ),
    }
}

/// The name, the domain's name, the objects and the items.
fn parts(alloc: Global, made: &ProblemAst) -> Result<String, AllocError> {
    let mut out = placed(alloc, &made.name)?;
    out.push_str(" | ")?;
    out.push_str(placed(alloc, &made.domain)?.as_str())?;
    out.push_str(" |")?;
    add_typed(alloc, &mut out, made.objects.as_slice())?;
    for each in made.init.as_slice() {
        out.push_str(" | ")?;
        out.push_str(item(alloc, each)?.as_str())?;
    }
    Ok(out)
}

pub fn answer_parts(alloc: Global, text: &[u8]) -> Result<String, AllocError> {
    match problem(alloc, text) {
        Ok(made) => parts(alloc, &made),
        Err(refusal) => show_refusal(alloc, &refusal, &[], text),
    }
}
