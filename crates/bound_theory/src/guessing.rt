//! A point that may meet the asserted bounds. Begin with `guess`.
ghost use Rattle.std.specs.Prelude.{◌≡◌, length, IfOk, IfSome};

use crate::bound::bound_of;
use formula::{Formula, Lit};
use frac128::Frac;
use sqlite_items::Items;
use std::alloc::{AllocError, Global};
use std::cmp::Ordering;

fn less(x: Frac, y: Frac) -> bool {
    match x.cmp(&y) {
        Ordering::Less => true,
        Ordering::Equal => false,
        Ordering::Greater => false,
    }
}

/// The least asserted upper bound of a count.
fn least(formula: &Formula, events: &[Option<Lit>], var: u64) -> Option<Frac> {
    let mut least = None;
    for event in events {
        if let Some(lit) = event {
            if let Some(bound) = bound_of(formula, *lit) {
                if lit.pos && bound.var == var {
                    least = Some(lesser(least, bound.most));
                }
            }
        }
    }
    least
}

fn lesser(so_far: Option<Frac>, x: Frac) -> Frac {
    match so_far {
        Some(y) => { if less(y, x) { y } else { x } }
        None => x,
    }
}

/// The greatest bound of a count that is asserted to be false.
fn greatest(formula: &Formula, events: &[Option<Lit>], var: u64) -> Option<Frac> {
    let mut greatest = None;
    for event in events {
        if let Some(lit) = event {
            if let Some(bound) = bound_of(formula, *lit) {
                if !lit.pos && bound.var == var {
                    greatest = Some(greater(greatest, bound.most));
                }
            }
        }
    }
    greatest
}

fn greater(so_far: Option<Frac>, x: Frac) -> Frac {
    match so_far {
        Some(y) => { if less(x, y) { y } else { x } }
        None => x,
    }
}

/// A half more.
fn half_more(x: Frac) -> Option<Frac> {
    x.add(&Frac::ratio(1, 2)).ok()
}

/// A value from above `below` on, up to `above`. In full, one between two whole numbers where there is room.
fn between(below: Option<Frac>, above: Option<Frac>, full: bool) -> Option<Frac> {
    let zero = Frac::ratio(0, 1);
    let Some(below) = below else {
        return match above {
            Some(above) => Some(above),
            None => { if full { half_more(zero) } else { Some(zero) } }
        };
    };
    let low = below.add(&Frac::ratio(1, 1)).ok()?;
    let Some(above) = above else {
        return Some(low);
    };
    if full && less(low, above) {
        half_more(low)
    } else {
        Some(low)
    }
}

/// A value for each variable, or none where an operation passes 128 bits.
pub(crate) fn guess(
    alloc: Global,
    formula: &Formula,
    events: &[Option<Lit>],
    full: bool,
) -> Result<Option<Items<Frac>>, AllocError>
    ensures { IfOk result (λ o. IfSome o (λ values. length values ≡ length formula.now.counts)) }
{
    let mut values = Items::new(alloc);
    for var in 0..formula.vars() {
        let below = greatest(formula, events, var);
        let above = least(formula, events, var);
        match between(below, above, full) {
            Some(value) => values.push(value)?,
            None => return Ok(None),
        }
    }
    Ok(Some(values))
}
