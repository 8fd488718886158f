//! The text of a ground task: the truths of the atoms at the start as a word of `0` and `1`; the values of the functions, `none`
//! where there is none; the goal; and the actions; with `;` between them.
//!
//! An action is words: `?3` and `!3` need that atom 3 is true, or false; `+3` adds it and `-3` deletes it; `2@0+-1<=0`, and so with
//! `<0` and `=0`, is a comparison (`expressions`); `0+=5` adds 5 to function 0, and `0:=1@1+2` gives it the value of function 1 and 2
//! more. Begin with `read_task`.
use crate::expressions::{read_expression, read_fraction, read_number};
use crate::refusal::Refusal;
use frac128::Frac;
use ground_check::checked_task;
use lin::Cmp;
use sqlite_items::Items;
use std::alloc::Global;
use task_core::{GAction, GroundTask};

fn read_truths(alloc: Global, text: &str) -> Result<Vec<bool>, Refusal> {
    let mut truths = Vec::new(alloc);
    for letter in text.trim().chars() {
        match letter {
            '0' => truths.push(false)?,
            '1' => truths.push(true)?,
            _ => return Err(Refusal::Form),
        }
    }
    Ok(truths)
}

fn read_values(alloc: Global, text: &str) -> Result<Vec<Option<Frac>>, Refusal> {
    let mut values = Vec::new(alloc);
    for word in text.split_whitespace() {
        let value = match word {
            "none" => None,
            fraction => Some(read_fraction(fraction)?),
        };
        values.push(value)?;
    }
    Ok(values)
}

fn add_comparison(alloc: Global, a: &mut GAction, text: &str, cmp: Cmp) -> Result<(), Refusal> {
    let expression = read_expression(alloc, text)?;
    a.cmps.push((expression, cmp))?;
    Ok(())
}

fn add_test(alloc: Global, a: &mut GAction, word: &str) -> Result<(), Refusal> {
    if let Some(text) = word.strip_suffix("<=0") {
        add_comparison(alloc, a, text, Cmp::Le)
    } else if let Some(text) = word.strip_suffix("<0") {
        add_comparison(alloc, a, text, Cmp::Lt)
    } else if let Some(text) = word.strip_suffix("=0") {
        add_comparison(alloc, a, text, Cmp::Eq)
    } else {
        Err(Refusal::Form)
    }
}

fn add_value(alloc: Global, a: &mut GAction, func: &str, text: &str) -> Result<(), Refusal> {
    let func = read_number(func)?;
    let expression = read_expression(alloc, text)?;
    a.sets.push((func, expression))?;
    Ok(())
}

fn add_amount(a: &mut GAction, func: &str, text: &str) -> Result<(), Refusal> {
    let amount = (read_number(func)?, read_fraction(text)?);
    a.incs.push(amount)?;
    Ok(())
}

/// Comparisons and what changes functions.
fn add_numeric(alloc: Global, a: &mut GAction, word: &str) -> Result<(), Refusal> {
    if let Some((func, text)) = word.split_once(":=") {
        add_value(alloc, a, func, text)
    } else if let Some((func, text)) = word.split_once("+=") {
        add_amount(a, func, text)
    } else {
        add_test(alloc, a, word)
    }
}

fn add_literal(a: &mut GAction, atom: &str, truth: bool) -> Result<(), Refusal> {
    a.lits.push((read_number(atom)?, truth))?;
    Ok(())
}

fn add_change(atoms: &mut Items<u64>, atom: &str) -> Result<(), Refusal> {
    atoms.push(read_number(atom)?)?;
    Ok(())
}

fn add_word(alloc: Global, a: &mut GAction, word: &str) -> Result<(), Refusal> {
    if word.contains("@") || word.contains("=") {
        add_numeric(alloc, a, word)
    } else if let Some(atom) = word.strip_prefix("?") {
        add_literal(a, atom, true)
    } else if let Some(atom) = word.strip_prefix("!") {
        add_literal(a, atom, false)
    } else if let Some(atom) = word.strip_prefix("+") {
        add_change(&mut a.adds, atom)
    } else if let Some(atom) = word.strip_prefix("-") {
        add_change(&mut a.dels, atom)
    } else {
        add_test(alloc, a, word)
    }
}

fn no_action(alloc: Global) -> GAction {
    GAction {
        lits: Items::new(alloc),
        cmps: Items::new(alloc),
        adds: Items::new(alloc),
        dels: Items::new(alloc),
        incs: Items::new(alloc),
        sets: Items::new(alloc),
    }
}

fn read_action(alloc: Global, text: &str) -> Result<GAction, Refusal> {
    let mut a = no_action(alloc);
    for word in text.split_whitespace() {
        add_word(alloc, &mut a, word)?;
    }
    Ok(a)
}

fn read_actions(alloc: Global, texts: &[&str]) -> Result<Vec<GAction>, Refusal> {
    let mut actions = Vec::new(alloc);
    for text in texts {
        actions.push(read_action(alloc, text)?)?;
    }
    Ok(actions)
}

fn read_parts(alloc: Global, parts: &[&str]) -> Result<GroundTask, Refusal> {
    let [truths, values, goal, actions @ ..] = parts else {
        return Err(Refusal::Form);
    };
    let truths = read_truths(alloc, truths)?;
    let values = read_values(alloc, values)?;
    let goal = read_action(alloc, goal)?;
    let actions = read_actions(alloc, actions)?;
    checked_task(truths, values, actions, goal).ok_or(Refusal::NoTask)
}

pub fn read_task(alloc: Global, text: &str) -> Result<GroundTask, Refusal> {
    let mut parts = Vec::new(alloc);
    for part in text.split(';') {
        parts.push(part)?;
    }
    read_parts(alloc, parts.as_slice())
}
