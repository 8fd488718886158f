//! Bounds of counts at values, and two bounds that exclude each other.
use formula::{Formula, Lit};
use frac128::Frac;
use std::alloc::{AllocError, Global};
use std::cmp::Ordering;

/// The bound `var <= most` that a Boolean is.
#[derive(Clone, Copy)]
pub struct Bound {
    pub var: u64,
    pub most: Frac,
}

/// The bound of a Boolean, if it is one.
fn bound_of(formula: &Formula, boolean: u64) -> Option<Bound> {
    if boolean >= formula.booleans() {
        return None;
    }
    let atom = formula.atom(boolean)?;
    if atom.lin.terms() != 1 {
        return None;
    }
    Some(Bound {
        var: atom.lin.term(0).0,
        most: atom.bound,
    })
}

/// The bounds of a formula's Booleans.
pub fn bounds_of(alloc: Global, formula: &Formula) -> Result<Vec<Option<Bound>>, AllocError> {
    let mut bounds = Vec::new(alloc);
    for b in 0..formula.booleans() {
        bounds.push(bound_of(formula, b))?;
    }
    Ok(bounds)
}

fn bound_at(bounds: &[Option<Bound>], boolean: u64) -> Option<Bound> {
    let b = boolean as usize;
    if b < bounds.len() {
        return bounds[b];
    }
    None
}

fn is_at_most(x: &Frac, y: &Frac) -> bool {
    match x.cmp(y) {
        Ordering::Less => true,
        Ordering::Equal => true,
        Ordering::Greater => false,
    }
}

/// Whether the literals can't both be false: a count would be at most a number, and above one that isn't below it.
pub fn exclude(bounds: &[Option<Bound>], upper: Lit, lower: Lit) -> bool {
    if upper.pos || !lower.pos {
        return false;
    }
    let Some(above) = bound_at(bounds, upper.boolean) else {
        return false;
    };
    let Some(below) = bound_at(bounds, lower.boolean) else {
        return false;
    };
    above.var == below.var && is_at_most(&above.most, &below.most)
}

/// Whether a bound of a count, or where the truth is false its opposite, holds at the values.
fn holds(bound: Bound, truth: bool, values: &[Frac]) -> bool {
    let v = bound.var as usize;
    if v >= values.len() {
        return false;
    }
    if truth {
        return is_at_most(&values[v], &bound.most);
    }
    match bound.most.add(&Frac::ratio(1, 1)) {
        Ok(least) => is_at_most(&least, &values[v]),
        Err(_) => false,
    }
}

/// Whether there is a truth for each Boolean, and each bound with its truth holds at the values.
pub fn hold_at(bounds: &[Option<Bound>], truths: &[bool], values: &[Frac]) -> bool {
    if bounds.len() != truths.len() {
        return false;
    }
    for (b, truth) in truths.iter().enumerate() {
        if let Some(bound) = bound_at(bounds, b as u64) {
            if !holds(bound, *truth, values) {
                return false;
            }
        }
    }
    true
}

/// Whether the value lies between `k` and the next number, and is neither.
pub fn is_between(values: &[Frac], var: u64, k: &Frac) -> bool {
    let v = var as usize;
    if v >= values.len() {
        return false;
    }
    match k.add(&Frac::ratio(1, 1)) {
        Ok(next) => !is_at_most(&values[v], k) && !is_at_most(&next, &values[v]),
        Err(_) => false,
    }
}

/// Whether all values are whole.
pub fn are_whole(values: &[Frac]) -> bool {
    for value in values {
        if !value.is_whole() {
            return false;
        }
    }
    true
}
