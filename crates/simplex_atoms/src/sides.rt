//! The variable of each atom, with its bounds. Begin with `sides_of`.
ghost use Rattle.std.specs.Prelude.{◌≡◌, ◌<◌, ◌+◌, ◌^◌, true, false, length, IfOk};
ghost use Rattle.formula.specs.Reading.{IsOfAtom, reading_of, atom_of};
ghost use Rattle.formula.specs.Contents.{IsFormula};
ghost use Rattle.simplex_atoms.specs.Sides.{above, below, sides_where, sides_of};

use crate::rows::variable_of;
use formula::{Formula, Lit};
use lin::Lin;
use simplex_law::Bound;
use std::alloc::{AllocError, Global};

/// The variable that an atom bounds: from above by `upper` where it is true, and from below by `lower` where it is false.
#[derive(Clone, Copy, PartialEq, Eq, Debug)]
pub struct Sides {
    pub variable: u64,
    pub upper: Bound,
    pub lower: Bound,
}

fn upper_bound(formula: &Formula, boolean: u64) -> Result<Bound, AllocError>
    requires { IsOfAtom formula.now (record { boolean = boolean; pos = true }) }
    ensures { IfOk result (λ b. b ≡ above (reading_of formula.now (record { boolean = boolean; pos = true }))) }
{
    let reading = formula.reading(&Lit { boolean, pos: true })?;
    Ok(Bound {
        value: reading.bound,
        strict: reading.strict,
    })
}

fn lower_bound(formula: &Formula, boolean: u64) -> Result<Bound, AllocError>
    requires { IsOfAtom formula.now (record { boolean = boolean; pos = false }) }
    ensures { IfOk result (λ b. b ≡ below (reading_of formula.now (record { boolean = boolean; pos = false }))) }
{
    let reading = formula.reading(&Lit {
        boolean,
        pos: false,
    })?;
    Ok(Bound {
        value: reading.bound.neg(),
        strict: reading.strict,
    })
}

/// The variable and the bounds of one Boolean, where it has an atom.
pub fn side_of(formula: &Formula, rows: &[Lin], boolean: u64) -> Result<Option<Sides>, AllocError>
    requires boolean { boolean < length formula.now.atoms }
    requires room { length formula.now.counts + length rows.now < 2 ^ 64 }
    ensures { IfOk result (λ s. s ≡ sides_where formula.now.counts rows.now (atom_of formula.now boolean)) }
{
    let Some(atom) = formula.atom(boolean) else {
        return Ok(None);
    };
    let variable = variable_of(formula.vars(), rows, &atom.lin);
    let upper = upper_bound(formula, boolean)?;
    let lower = lower_bound(formula, boolean)?;
    Ok(Some(Sides {
        variable,
        upper,
        lower,
    }))
}

/// Those of each Boolean.
pub fn sides_of(
    alloc: Global,
    formula: &Formula,
    rows: &[Lin],
) -> Result<Vec<Option<Sides>>, AllocError>
    requires { length formula.now.counts + length rows.now < 2 ^ 64 }
    ensures { IfOk result (λ v. v.items ≡ sides_of formula.now.counts rows.now formula.now.atoms) }
{
    let mut sides = Vec::new(alloc);
    for b in 0..formula.booleans() {
        sides.push(side_of(formula, rows, b)?)?;
    }
    Ok(sides)
}
