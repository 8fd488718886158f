//! Fractions: the operations, the order, and their texts.
use frac128::{Frac, NumFault, Wide};
use row_files::{show_fraction, show_wide};
use std::alloc::{AllocError, Global};
use std::str;

fn show_read(alloc: Global, read: Result<Frac, NumFault>) -> Result<String, AllocError> {
    match read {
        Ok(value) => show_fraction(alloc, &value),
        Err(NumFault::Form) => String::from_str(alloc, "form"),
        Err(NumFault::Wide) => String::from_str(alloc, "wide"),
    }
}

/// The whole number of these digits as a fraction.
fn answer_whole(alloc: Global, digits: &str) -> Result<String, AllocError> {
    let Ok(number) = digits.parse::<i128>() else {
        return String::from_str(alloc, "no number");
    };
    match Frac::whole(number) {
        Some(value) => {
            let shown = show_fraction(alloc, &value)?;
            let is_whole = value.is_whole();
            format!(in alloc; "{shown} {is_whole}")
        }
        None => String::from_str(alloc, "none"),
    }
}

fn answer_floor(alloc: Global, text: &[u8]) -> Result<String, AllocError> {
    match Frac::from_text(text) {
        Ok(value) => value.floor().to_string(alloc),
        Err(_) => String::from_str(alloc, "no fraction"),
    }
}

fn show_found(alloc: Global, found: Result<Frac, Wide>) -> Result<String, AllocError> {
    match found {
        Ok(value) => show_fraction(alloc, &value),
        Err(wide) => {
            let wide = show_wide(alloc, &wide)?;
            format!(in alloc; "wide: {wide}")
        }
    }
}

fn answer_quotient(alloc: Global, x: &Frac, y: &Frac) -> Result<String, AllocError> {
    if y.num() == 0 {
        return String::from_str(alloc, "by 0");
    }
    show_found(alloc, x.div(y))
}

/// How the two compare, each way.
fn answer_order(alloc: Global, x: &Frac, y: &Frac) -> Result<String, AllocError> {
    let there = x.cmp(y);
    let back = y.cmp(x);
    format!(in alloc; "{there:?} {back:?}")
}

fn answer_operation(alloc: Global, word: &str, x: &Frac, y: &Frac) -> Result<String, AllocError> {
    match word {
        "add" => show_found(alloc, x.add(y)),
        "sub" => show_found(alloc, x.sub(y)),
        "mul" => show_found(alloc, x.mul(y)),
        "div" => answer_quotient(alloc, x, y),
        "cmp" => answer_order(alloc, x, y),
        _ => String::from_str(alloc, "no such operation"),
    }
}

fn answer_pair(alloc: Global, word: &str, x: &[u8], y: &[u8]) -> Result<String, AllocError> {
    match (Frac::from_text(x), Frac::from_text(y)) {
        (Ok(x), Ok(y)) => answer_operation(alloc, word, &x, &y),
        _ => String::from_str(alloc, "no fractions"),
    }
}

/// What a text is read as, what is asked of the fraction that it spells, or what an operation on two comes to.
pub fn answer(alloc: Global, word: &str, x: &[u8], y: &[u8]) -> Result<String, AllocError> {
    match word {
        "text" => show_read(alloc, Frac::from_text(x)),
        "decimal" => show_read(alloc, Frac::from_decimal(x)),
        "floor" => answer_floor(alloc, x),
        "whole" => answer_whole(alloc, str::from_utf8(x).unwrap_or("")),
        operation => answer_pair(alloc, operation, x, y),
    }
}
