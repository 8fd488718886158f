//! Booleans from text: `t` for a truth variable, and `V:K` for the bound `vV <= K` of a count, with `,` between them. Begin with
//! `read_booleans`.
ghost use Rattle.std.specs.Prelude.{◌≡◌, slice_get, Some, true, pos};
ghost use Rattle.rational.specs.Fraction.{whole, ◌+ℚ◌};
ghost use Rattle.frac128.specs.Bounds.{IsFrac};

use formula::Formula;
use frac128::Frac;
use std::alloc::{AllocError, Global};

/// Whether the next number is one of 128 bits.
fn has_next(k: &Frac) -> bool
    ensures { result ≡ true → IsFrac (k.now +ℚ whole (pos 1)) }
{
    match k.add(&Frac::ratio(1, 1)) {
        Ok(sum) => {
            let _num = sum.num();
            let _den = sum.den();
            true
        }
        Err(_) => false,
    }
}

/// One more Boolean, for the bound `var <= most`. Whether it is a bound of a count.
fn add_bound(formula: &mut Formula, var: u64, most: Frac) -> Result<bool, AllocError> {
    if var >= formula.vars() || !formula.is_count(var) {
        return Ok(false);
    }
    if !most.is_whole() || !has_next(&most) {
        return Ok(false);
    }
    let _number = formula.add_split(var, most)?;
    Ok(true)
}

/// One more Boolean. Whether the word is one.
fn add_boolean(formula: &mut Formula, word: &str) -> Result<bool, AllocError> {
    if word == "t" {
        let _number = formula.add_truth()?;
        return Ok(true);
    }
    let Some((var, most)) = word.split_once(':') else {
        return Ok(false);
    };
    let Ok(var) = var.parse::<u64>() else {
        return Ok(false);
    };
    let Ok(most) = Frac::from_decimal(most.as_bytes()) else {
        return Ok(false);
    };
    add_bound(formula, var, most)
}

/// A formula with so many counts and these Booleans, without clauses.
pub fn read_booleans(
    alloc: Global,
    counts: u64,
    text: &str,
) -> Result<Option<Formula>, AllocError> {
    let mut formula = Formula::new(alloc);
    for _v in 0..counts {
        let _number = formula.add_var(true)?;
    }
    for word in text.split(',') {
        if !add_boolean(&mut formula, word)? {
            return Ok(None);
        }
    }
    Ok(Some(formula))
}
