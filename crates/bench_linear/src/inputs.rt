//! The expressions and the points that are timed. The C program makes the same.
ghost use Rattle.std.specs.Prelude.{◌≢◌, pos};

use anyhow::Result;
use frac128::Frac;
use lin::Lin;
use std::alloc::{AllocError, Global};

/// An expression with as many terms, whose variables are the multiples of `step`.
pub fn make_expression(alloc: Global, terms: u64, step: u64) -> Result<Lin> {
    let mut sum = Lin::fixed(alloc, fraction(step));
    for i in 0..terms {
        let variable = i.wrapping_mul(step);
        let term = Lin::var(alloc, variable)?.scale(&fraction(variable))?;
        sum = sum.add(&term)?;
    }
    Ok(sum)
}

/// As many values.
pub fn make_point(alloc: Global, values: u64) -> Result<Vec<Frac>, AllocError> {
    let mut point = Vec::new(alloc);
    for i in 0..values {
        point.push(fraction(i.wrapping_add(5)))?;
    }
    Ok(point)
}

// A small fraction that isn't 0. Denominators go up to 6, so a sum of any length has one of at most 60.
fn fraction(seed: u64) -> Frac {
    let size = i128::from(seed.wrapping_mul(7919) % 1000) + 1;
    let num = if seed % 4 < 2 { size } else { -size };
    Frac::ratio(num, i128::from(seed % 6) + 1)
}
