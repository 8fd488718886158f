//! Atoms as lists of numbers, which a table can hash: two are equal exactly where their atoms are. Begin with `key_of`.
ghost use Rattle.std.specs.Prelude.{◌≡◌, ◌++◌, ◌∷◌, [], IfOk, OnOk};
ghost use Rattle.formula.specs.inside.Keys.{flag, sign_of, magnitude, fraction_key, key_of};

use crate::atom::Atom;
use frac128::Frac;
use std::alloc::{AllocError, Global};

/// Whether it is strict, the bound, and each term's variable and coefficient.
pub(crate) fn key_of(alloc: Global, a: &Atom) -> Result<Vec<u128>, AllocError>
    ensures { IfOk result (λ k. k.items ≡ key_of a.now) }
{
    let mut key = Vec::new(alloc);
    push(&mut key, flag(a.strict))?;
    push_fraction(&mut key, &a.bound)?;
    for i in 0..a.lin.terms() {
        let term = a.lin.term(i);
        push(&mut key, u128::from(term.0))?;
        push_fraction(&mut key, &term.1)?;
    }
    Ok(key)
}

fn push(key: &mut Vec<u128>, n: u128) -> Result<(), AllocError>
    ensures { OnOk result (key.new.items ≡ key.old.items ++ n ∷ []) }
{
    key.push(n)?;
    Ok(())
}

fn push_fraction(key: &mut Vec<u128>, x: &Frac) -> Result<(), AllocError>
    ensures { OnOk result (key.new.items ≡ key.old.items ++ fraction_key x.now) }
{
    push(key, flag(is_below_zero(x)))?;
    push(key, magnitude(x))?;
    push(key, denominator(x))?;
    Ok(())
}

fn flag(b: bool) -> u128
    ensures { result ≡ flag b }
{
    if b { 1 } else { 0 }
}

fn is_below_zero(x: &Frac) -> bool
    ensures { flag result ≡ sign_of x.now.num }
{
    x.num() < 0
}

fn magnitude(x: &Frac) -> u128
    ensures { result ≡ magnitude x.now.num }
{
    x.num().unsigned_abs()
}

fn denominator(x: &Frac) -> u128
    ensures { result ≡ x.now.den }
{
    x.den().unsigned_abs()
}
