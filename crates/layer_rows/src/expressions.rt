//! The texts of numbers, fractions and linear expressions. An expression is its terms, each a coefficient and its function as in
//! `1/2@0`, and its constant, with `+` between them.
use crate::refusal::Refusal;
use frac128::Frac;
use lin::Lin;
use std::alloc::Global;

pub fn read_number(text: &str) -> Result<u64, Refusal> {
    text.parse::<u64>().ok().ok_or(Refusal::Form)
}

pub fn read_fraction(text: &str) -> Result<Frac, Refusal> {
    Frac::from_text(text.as_bytes()).ok().ok_or(Refusal::Form)
}

fn read_part(alloc: Global, part: &str) -> Result<Lin, Refusal> {
    match part.split_once('@') {
        None => Ok(Lin::fixed(alloc, read_fraction(part)?)),
        Some((coefficient, variable)) => read_term(alloc, coefficient, variable),
    }
}

fn read_term(alloc: Global, coefficient: &str, variable: &str) -> Result<Lin, Refusal> {
    let coefficient = read_fraction(coefficient)?;
    let variable = Lin::var(alloc, read_number(variable)?)?;
    Ok(variable.scale(&coefficient)?)
}

pub fn read_expression(alloc: Global, text: &str) -> Result<Lin, Refusal> {
    let mut sum = Lin::fixed(alloc, Frac::ratio(0, 1));
    for part in text.split('+') {
        sum = sum.add(&read_part(alloc, part)?)?;
    }
    Ok(sum)
}
