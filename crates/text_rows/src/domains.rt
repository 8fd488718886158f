//! Texts of domains: their first faults, and the syntax of those without one.
use crate::forms::{add_typed, tree_of};
use pddl_domain::{ActionAst, DomainAst, Head, read_domain};
use row_files::show_refusal;
use sexpr::{Source, TextRefusal};
use std::alloc::{AllocError, Global};

fn domain(alloc: Global, text: &[u8]) -> Result<DomainAst, TextRefusal> {
    let tree = tree_of(alloc, Source::Domain, text)?;
    read_domain(alloc, &tree)
}

/// How many types, constants, predicates, functions and actions.
fn counts(alloc: Global, made: &DomainAst) -> Result<String, AllocError> {
    let types = made.types.len();
    let constants = made.constants.len();
    let preds = made.preds.len();
    let funcs = made.funcs.len();
    let actions = made.actions.len();
    format!(in alloc; "{types} {constants} {preds} {funcs} {actions}")
}

pub fn answer(alloc: Global, text: &[u8]) -> Result<String, AllocError> {
    match domain(alloc, text) {
        Ok(made) => counts(alloc, &made),
        Err(refusal) => show_refusal(alloc, &refusal, text, &[]),
    }
}

fn add_function(alloc: Global, out: &mut String, function: &Head) -> Result<(), AllocError> {
    out.push_str(" | ")?;
    out.push_str(function.name.text.as_str())?;
    add_typed(alloc, out, function.params.as_slice())
}

/// An action with its parameters, and how many leaves its condition and its effect have.
fn add_action(alloc: Global, out: &mut String, action: &ActionAst) -> Result<(), AllocError> {
    out.push_str(" | ")?;
    out.push_str(action.name.text.as_str())?;
    add_typed(alloc, out, action.params.as_slice())?;
    let conds = action.conds.len();
    let effs = action.effs.len();
    out.push_str(format!(in alloc; " {conds} {effs}")?.as_str())
}

/// The name, the functions and the actions.
fn parts(alloc: Global, made: &DomainAst) -> Result<String, AllocError> {
    let mut out = made.name.text.as_str().to_string(alloc)?;
    for function in made.funcs.as_slice() {
        add_function(alloc, &mut out, function)?;
    }
    for action in made.actions.as_slice() {
        add_action(alloc, &mut out, action)?;
    }
    Ok(out)
}

pub fn answer_parts(alloc: Global, text: &[u8]) -> Result<String, AllocError> {
    match domain(alloc, text) {
        Ok(made) => parts(alloc, &made),
        Err(refusal) => show_refusal(alloc, &refusal, text, &[]),
    }
}
