//! The asserted literals of a stuck row, with their coefficients. Begin with `gather`.
ghost use Rattle.std.specs.Prelude.{◌≡◌, ◌<◌, ◌++◌, IsTrue, length, OnOk};
ghost use Rattle.rational.specs.Fraction.{◌*ℚ◌};
ghost use Rattle.tableau.specs.Table.{width, cell, is_basic};
ghost use Rattle.simplex_atoms.specs.Tightest.{number_at};
ghost use Rattle.simplex_clash.specs.Parts.{sign_of, part_of, listed, parts_below};

use crate::number::{is_negative, is_positive};
use formula::Lit;
use frac128::Frac;
use simplex_law::Side;
use std::alloc::AllocError;
use tableau::Tableau;

// The cell, as it bears on the direction in which the row has to move.
fn signed(side: Side, c: &Frac) -> Frac
    ensures { result ≡ sign_of side *ℚ c.now }
{
    match side {
        Side::Under => *c,
        Side::Over => c.neg(),
    }
}

fn part_of(s: &Frac, lower: u64, upper: u64) -> Option<(Lit, Frac)>
    ensures { result ≡ part_of s.now lower upper }
{
    if is_positive(s) {
        return Some((
            Lit {
                boolean: upper,
                pos: true,
            },
            *s,
        ));
    }
    if is_negative(s) {
        return Some((
            Lit {
                boolean: lower,
                pos: false,
            },
            s.neg(),
        ));
    }
    None
}

fn add_part(parts: &mut Vec<(Lit, Frac)>, part: Option<(Lit, Frac)>) -> Result<(), AllocError>
    ensures { OnOk result (parts.new.items ≡ parts.old.items ++ listed part) }
{
    match part {
        None => Ok(()),
        Some(p) => {
            parts.push(p)?;
            Ok(())
        }
    }
}

/// The literals that hold the variables of the row of r, behind those that are there.
pub(crate) fn gather(
    t: &Tableau,
    r: u64,
    side: Side,
    lower_by: &[u64],
    upper_by: &[u64],
    parts: &mut Vec<(Lit, Frac)>,
) -> Result<(), AllocError>
    requires row { r < width t.now }
    requires basic { IsTrue (is_basic t.now r) }
    requires lower { length lower_by.now ≡ width t.now }
    requires upper { length upper_by.now ≡ width t.now }
    ensures { OnOk result (parts.new.items ≡ parts.old.items ++ parts_below side (cell t.now r) (number_at lower_by.now) (number_at upper_by.now) (width t.now)) }
{
    for j in 0..t.width() {
        let s = signed(side, &t.cell(r, j));
        let part = part_of(&s, lower_by[j as usize], upper_by[j as usize]);
        add_part(parts, part)?;
    }
    Ok(())
}
