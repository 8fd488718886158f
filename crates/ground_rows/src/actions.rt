//! A ground action as words: `?3` and `!3` need that atom 3 is true, or false; `2@0+-1<=0`, and so with `<0` and `=0`, is a
//! comparison, whose expression is terms, each a coefficient and its function, and a constant, with `+` between them; `+3` adds
//! atom 3 and `-3` deletes it; `0+=5` adds 5 to function 0, and `0:=1@1+2` gives it the value of function 1 and 2 more.
use frac128::Frac;
use lin::{Cmp, Lin};
use row_files::show_fraction;
use std::alloc::{AllocError, Global};
use task_core::GAction;

fn add_fraction(alloc: Global, out: &mut String, value: &Frac) -> Result<(), AllocError> {
    out.push_str(show_fraction(alloc, value)?.as_str())
}

fn add_expression(alloc: Global, out: &mut String, l: &Lin) -> Result<(), AllocError> {
    for i in 0..l.terms() {
        let (variable, coefficient) = l.term(i);
        add_fraction(alloc, out, &coefficient)?;
        out.push_str(format!(in alloc; "@{variable}+")?.as_str())?;
    }
    add_fraction(alloc, out, &l.constant())
}

fn add_literals(alloc: Global, out: &mut String, a: &GAction) -> Result<(), AllocError> {
    for (atom, truth) in a.lits.as_slice() {
        let sign = if *truth { "?" } else { "!" };
        out.push_str(format!(in alloc; " {sign}{atom}")?.as_str())?;
    }
    Ok(())
}

fn sign_of(cmp: Cmp) -> &'static str {
    match cmp {
        Cmp::Le => "<=0",
        Cmp::Lt => "<0",
        Cmp::Eq => "=0",
    }
}

fn add_comparisons(alloc: Global, out: &mut String, a: &GAction) -> Result<(), AllocError> {
    for comparison in a.cmps.as_slice() {
        out.push_str(" ")?;
        add_expression(alloc, out, &comparison.0)?;
        out.push_str(sign_of(comparison.1))?;
    }
    Ok(())
}

fn add_atoms(alloc: Global, out: &mut String, sign: &str, atoms: &[u64]) -> Result<(), AllocError> {
    for atom in atoms {
        out.push_str(format!(in alloc; " {sign}{atom}")?.as_str())?;
    }
    Ok(())
}

fn add_amounts(alloc: Global, out: &mut String, a: &GAction) -> Result<(), AllocError> {
    for inc in a.incs.as_slice() {
        let func = inc.0;
        out.push_str(format!(in alloc; " {func}+=")?.as_str())?;
        add_fraction(alloc, out, &inc.1)?;
    }
    Ok(())
}

fn add_values(alloc: Global, out: &mut String, a: &GAction) -> Result<(), AllocError> {
    for set in a.sets.as_slice() {
        let func = set.0;
        out.push_str(format!(in alloc; " {func}:=")?.as_str())?;
        add_expression(alloc, out, &set.1)?;
    }
    Ok(())
}

/// Adds the parts of a ground action, each behind a space.
pub fn add_action(alloc: Global, out: &mut String, a: &GAction) -> Result<(), AllocError> {
    add_literals(alloc, out, a)?;
    add_comparisons(alloc, out, a)?;
    add_atoms(alloc, out, "+", a.adds.as_slice())?;
    add_atoms(alloc, out, "-", a.dels.as_slice())?;
    add_amounts(alloc, out, a)?;
    add_values(alloc, out, a)
}
