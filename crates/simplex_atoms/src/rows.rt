//! The rows of a tableau: the left sides of atoms that aren't one variable, each once, in the order of the atoms. Begin with
//! `rows_of`.
ghost use Rattle.std.specs.Prelude.{◌≡◌, ◌+◌, ◌<◌, ◌^◌, length, IfOk, OnOk};
ghost use Rattle.simplex_atoms.specs.LeftSides.{row_with, with_side, with_atom, rows_of, variable_of, is_one_term};

use crate::same::same_terms;
use formula::Atom;
use lin::Lin;
use std::alloc::{AllocError, Global};

fn is_one_term(side: &Lin) -> bool
    ensures { result ≡ is_one_term side.now.terms }
{
    side.terms() == 1
}

/// The place of the first row with the same terms, or how many there are.
fn row_with(rows: &[Lin], side: &Lin) -> usize
    ensures { result ≡ row_with side.now.terms rows.now }
{
    for (i, row) in rows.iter().enumerate() {
        if same_terms(row, side) {
            return i;
        }
    }
    rows.len()
}

fn add_side(rows: &mut Vec<Lin>, side: &Lin) -> Result<(), AllocError>
    ensures { OnOk result (rows.new.items ≡ with_side rows.old.items side.now) }
{
    if is_one_term(side) {
        return Ok(());
    }
    if row_with(rows, side) < rows.len() {
        return Ok(());
    }
    rows.push(side.try_clone()?)?;
    Ok(())
}

fn add_atom(rows: &mut Vec<Lin>, atom: &Option<Atom>) -> Result<(), AllocError>
    ensures { OnOk result (rows.new.items ≡ with_atom rows.old.items atom.now) }
{
    match atom {
        None => Ok(()),
        Some(a) => add_side(rows, &a.lin),
    }
}

/// The row of each left side that isn't one variable.
pub fn rows_of(alloc: Global, atoms: &[Option<Atom>]) -> Result<Vec<Lin>, AllocError>
    ensures { IfOk result (λ rows. rows.items ≡ rows_of atoms.now) }
{
    let mut rows = Vec::new(alloc);
    for atom in atoms {
        add_atom(&mut rows, atom)?;
    }
    Ok(rows)
}

/// The variable with this left side: itself, or that of its row.
pub(crate) fn variable_of(vars: u64, rows: &[Lin], side: &Lin) -> u64
    requires { vars + length rows.now < 2 ^ 64 }
    ensures { result ≡ variable_of vars rows.now side.now.terms }
{
    if is_one_term(side) {
        return side.term(0).0;
    }
    vars + row_with(rows, side) as u64
}
