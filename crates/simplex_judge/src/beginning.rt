//! The beginning of a check: the asserted literals in rising order, the bounds that they give, and the basis. Begin with `begin`.
ghost use Rattle.std.specs.Prelude.{◌≡◌, ◌<◌, IfOk, All, length};
ghost use Rattle.simplex_atoms.specs.Tightest.{IsTable};
ghost use Rattle.simplex_fit.specs.Fit.{IsFit};
ghost use Rattle.simplex_fit.specs.Assigned.{AreOfAtoms};
ghost use Rattle.simplex_judge.specs.inside.Begun.{IsBegun, AreBoth};

use formula::{Formula, Lit};
use simplex_atoms::{Held, Sides, tightest};
use simplex_fit::{literals, signs};
use std::alloc::{AllocError, Global};
use tableau::Tableau;

/// The signs of the Booleans, their literals, the basis, and the bounds from below and from above.
#[derive(Drop)]
pub struct Begun {
    pub signs: Vec<Option<bool>>,
    pub lits: Vec<Lit>,
    pub basis: Vec<u64>,
    pub both: Both,
}

/// The bounds from below and from above.
#[derive(Drop)]
pub struct Both {
    pub lower: Held,
    pub upper: Held,
}

fn bounds(
    alloc: Global,
    sides: &[Option<Sides>],
    lits: &[Lit],
    n: usize,
) -> Result<Both, AllocError>
    requires within { All (λ l. l.boolean < length sides.now) lits.now }
    requires table { IsTable n sides.now }
    ensures { IfOk result (AreBoth sides.now lits.now n) }
{
    let lower = tightest(alloc, sides, lits, false, n)?;
    let upper = tightest(alloc, sides, lits, true, n)?;
    Ok(Both { lower, upper })
}

fn copied(alloc: Global, xs: &[u64]) -> Result<Vec<u64>, AllocError>
    ensures { IfOk result (λ v. v.items ≡ xs.now) }
{
    let mut copy = Vec::new(alloc);
    for x in xs {
        copy.push(*x)?;
    }
    Ok(copy)
}

/// What a check begins with.
pub fn begin(
    alloc: Global,
    formula: &Formula,
    sides: &[Option<Sides>],
    t: &Tableau,
    events: &[Option<Lit>],
) -> Result<Begun, AllocError>
    requires fit { IsFit formula.now sides.now t.now }
    requires of_atoms { AreOfAtoms formula.now.atoms events.now }
    ensures { IfOk result (IsBegun formula.now t.now events.now) }
{
    let signs = signs(alloc, events, formula.booleans())?;
    let lits = literals(alloc, &signs)?;
    let basis = copied(alloc, t.basis())?;
    let both = bounds(alloc, sides, &lits, t.width() as usize)?;
    Ok(Begun {
        signs,
        lits,
        basis,
        both,
    })
}
