//! The tableau of a formula's rows, and what its atoms say of the tableau's variables.
ghost use Rattle.std.specs.Prelude.{◌≡◌, IfOk};
ghost use Rattle.simplex_fit.specs.Fit.{IsFit};

use crate::copying::atoms_of;
use formula::Formula;
use simplex_atoms::{Sides, rows_of, sides_of};
use std::alloc::{AllocError, Global};
use tableau::Tableau;

/// A tableau, and for each Boolean the variable and the bounds of its atom, if it has one.
#[derive(Drop)]
pub struct Fit {
    pub sides: Vec<Option<Sides>>,
    pub tableau: Tableau,
}

/// Those of a formula. There is no memory for more variables and rows than can be numbered.
pub fn fitted(alloc: Global, formula: &Formula) -> Result<Fit, AllocError>
    ensures { IfOk result (λ x. IsFit formula.now x.sides.items x.tableau) }
{
    let _clauses = formula.clauses();
    let atoms = atoms_of(alloc, formula)?;
    let rows = rows_of(alloc, &atoms)?;
    let vars = formula.vars();
    if vars.checked_add(rows.len() as u64).is_none() {
        return Err(AllocError);
    }
    let sides = sides_of(alloc, formula, &rows)?;
    let tableau = Tableau::new(alloc, vars, &rows)?;
    Ok(Fit { sides, tableau })
}
