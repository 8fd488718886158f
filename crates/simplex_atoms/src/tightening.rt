//! The bounds that literals give. Begin with `tightest`, for one sign: true literals bound from above, false ones from below.
ghost use Rattle.std.specs.Prelude.{◌≡◌, ◌<◌, ℕ, length, All, IfOk, Some, slice_get};
ghost use Rattle.simplex_atoms.specs.Sides.{bound_by};
ghost use Rattle.simplex_atoms.specs.Tightest.{AreTightest, IsTable};
ghost use Rattle.simplex_atoms.specs.inside.Noting.{TighterAnswers, IsNoted, IsNotedWhere};

use crate::sides::Sides;
use formula::Lit;
use simplex_law::Bound;
use std::alloc::{AllocError, Global};

/// The tightest bound of each variable, and the Boolean of the literal that gives it.
#[derive(Debug, Drop)]
pub struct Held {
    pub bounds: Vec<Option<Bound>>,
    pub by: Vec<u64>,
}

fn is_tighter(pos: bool, b: &Bound, held: &Option<Bound>) -> bool
    ensures { TighterAnswers pos b.now held.now result }
{
    match held {
        None => true,
        Some(c) => {
            if pos {
                b.upper_pair().is_below(&c.upper_pair())
            } else {
                c.lower_pair().is_below(&b.lower_pair())
            }
        }
    }
}

// Notes one more bound of the variable v.
fn note(
    bounds: &mut Vec<Option<Bound>>,
    by: &mut Vec<u64>,
    pos: bool,
    v: usize,
    b: Bound,
    boolean: u64,
)
    requires bounds { v < length bounds.old.items }
    requires many { length by.old.items ≡ length bounds.old.items }
    ensures { IsNoted pos v b boolean bounds.old.items by.old.items bounds.new.items by.new.items }
{
    if is_tighter(pos, &b, &bounds[v]) {
        bounds[v] = Some(b);
        by[v] = boolean;
    }
}

fn bound_by(pos: bool, side: &Sides) -> Bound
    ensures { result ≡ bound_by pos side.now }
{
    if pos { side.upper } else { side.lower }
}

// Notes what a literal says, where it has this sign and is of an atom.
fn note_literal(
    bounds: &mut Vec<Option<Bound>>,
    by: &mut Vec<u64>,
    pos: bool,
    sides: &[Option<Sides>],
    lit: Lit,
)
    requires within { lit.boolean < length sides.now }
    requires table { IsTable (length bounds.old.items) sides.now }
    requires many { length by.old.items ≡ length bounds.old.items }
    ensures { IsNotedWhere sides.now lit pos bounds.old.items by.old.items bounds.new.items by.new.items }
{
    if lit.pos == pos {
        let side = sides[lit.boolean as usize];
        if let Some(side) = side {
            let b = bound_by(pos, &side);
            note(bounds, by, pos, side.variable as usize, b, lit.boolean);
        }
    }
}

/// The bounds of n variables by the literals of one sign.
pub fn tightest(
    alloc: Global,
    sides: &[Option<Sides>],
    lits: &[Lit],
    pos: bool,
    n: usize,
) -> Result<Held, AllocError>
    requires within { All (λ l. l.boolean < length sides.now) lits.now }
    requires table { IsTable n sides.now }
    ensures { IfOk result (λ h. AreTightest sides.now lits.now pos n h.bounds.items h.by.items) }
{
    let mut bounds = vec![in alloc; None; n]?;
    let mut by = vec![in alloc; 0; n]?;
    for lit in lits {
        note_literal(&mut bounds, &mut by, pos, sides, *lit);
    }
    Ok(Held { bounds, by })
}
