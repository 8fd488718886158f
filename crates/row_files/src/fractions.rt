//! Fractions, and operations that pass 128 bits.
use crate::escapes::add_shown;
use frac128::{Frac, Op, Wide};
use std::alloc::{AllocError, Global};

fn word_of(op: Op) -> &'static str {
    match op {
        Op::Add => "add",
        Op::Sub => "sub",
        Op::Mul => "mul",
        Op::Div => "div",
    }
}

/// A fraction as `to_text` writes it.
pub fn show_fraction(alloc: Global, value: &Frac) -> Result<String, AllocError> {
    let mut text = Vec::new(alloc);
    value.to_text(&mut text)?;
    let mut out = String::new(alloc);
    add_shown(alloc, &mut out, text.as_slice())?;
    Ok(out)
}

/// The operation and its operands.
pub fn show_wide(alloc: Global, wide: &Wide) -> Result<String, AllocError> {
    let op = word_of(wide.op);
    let x = show_fraction(alloc, &wide.x)?;
    let y = show_fraction(alloc, &wide.y)?;
    format!(in alloc; "{op} {x} {y}")
}
