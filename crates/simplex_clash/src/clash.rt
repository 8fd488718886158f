//! The lemmas of a stuck row, and of two bounds that cross.
ghost use Rattle.std.specs.Prelude.{◌≡◌, ◌<◌, ℕ, IsTrue, List, [], ◌∷◌, length, IfOk};
ghost use Rattle.formula.specs.declared.atom.Lit.{Lit};
ghost use Rattle.formula.specs.Contents.{Contents};
ghost use Rattle.tableau.specs.Table.{Table, width, cell, is_basic};
ghost use Rattle.simplex_law.specs.declared.bound.Side.TheVariants as sides;
ghost use Rattle.simplex_law.specs.Config.{lower_of, upper_of, IsPlaced, IsStuck};
ghost use Rattle.simplex_law.specs.declared.pair.Pair.{Pair};
ghost use Rattle.simplex_check.specs.Starts.{Crosses};
ghost use Rattle.simplex_atoms.specs.Tightest.{number_at};
ghost use Rattle.simplex_clash.specs.Setting.{limits_of, IsSetting};
ghost use Rattle.simplex_clash.specs.Clash.{IsLemmaOf};
ghost use Rattle.simplex_clash.specs.Parts.{own_part, parts_below, IsMadeOf};

use crate::gathering::gather;
use crate::number::one;
use crate::ordering::lemma_of;
use formula::Lit;
use frac128::Frac;
use simplex_atoms::Held;
use simplex_law::Side;
use std::alloc::{AllocError, Global};
use tableau::Tableau;
use theory_law::Lemma;

fn own_part(side: Side, lower: u64, upper: u64) -> (Lit, Frac)
    ensures { result ≡ own_part side lower upper }
{
    match side {
        Side::Under => (
            Lit {
                boolean: lower,
                pos: false,
            },
            one(),
        ),
        Side::Over => (
            Lit {
                boolean: upper,
                pos: true,
            },
            one(),
        ),
    }
}

fn stuck_parts(
    alloc: Global,
    t: &Tableau,
    r: u64,
    side: Side,
    lower_by: &[u64],
    upper_by: &[u64],
) -> Result<Vec<(Lit, Frac)>, AllocError>
    requires row { r < width t.now }
    requires basic { IsTrue (is_basic t.now r) }
    requires lower { length lower_by.now ≡ width t.now }
    requires upper { length upper_by.now ≡ width t.now }
    ensures { IfOk result (λ ps. ps.items ≡ own_part side (number_at lower_by.now r) (number_at upper_by.now r) ∷ parts_below side (cell t.now r) (number_at lower_by.now) (number_at upper_by.now) (width t.now)) }
{
    let mut parts = Vec::new(alloc);
    parts.push(own_part(side, lower_by[r as usize], upper_by[r as usize]))?;
    gather(t, r, side, lower_by, upper_by, &mut parts)?;
    Ok(parts)
}

fn crossing_parts(
    alloc: Global,
    lower_by: u64,
    upper_by: u64,
) -> Result<Vec<(Lit, Frac)>, AllocError>
    ensures { IfOk result (λ ps. ps.items ≡ own_part sides.Under lower_by upper_by ∷ own_part sides.Over lower_by upper_by ∷ []) }
{
    let mut parts = Vec::new(alloc);
    parts.push(own_part(Side::Under, lower_by, upper_by))?;
    parts.push(own_part(Side::Over, lower_by, upper_by))?;
    Ok(parts)
}

/// The literal of the bound that r violates, and those that hold the variables of its row.
pub fn stuck(
    alloc: Global,
    t: &Tableau,
    r: u64,
    side: Side,
    lower: &Held,
    upper: &Held,
) -> Result<Lemma, AllocError>
    requires row { r < width t.now }
    requires basic { IsTrue (is_basic t.now r) }
    requires lower { length lower.now.by.items ≡ width t.now }
    requires upper { length upper.now.by.items ≡ width t.now }
    ensures made { IfOk result (IsMadeOf (own_part side (number_at lower.now.by.items r) (number_at upper.now.by.items r) ∷ parts_below side (cell t.now r) (number_at lower.now.by.items) (number_at upper.now.by.items) (width t.now))) }
    ensures shown { IfOk result (λ m. (f : Contents) (lits : List Lit) (place : ℕ → Pair) → IsSetting f lits t.now lower.now upper.now → IsPlaced (limits_of lower.now upper.now) t.now place
        → IsStuck (limits_of lower.now upper.now) t.now place r side → IsLemmaOf f lits m) }
{
    let parts = stuck_parts(alloc, t, r, side, &lower.by, &upper.by)?;
    lemma_of(alloc, parts)
}

/// The literals of both bounds of v.
pub fn crossing(alloc: Global, v: usize, lower: &Held, upper: &Held) -> Result<Lemma, AllocError>
    requires lower { v < length lower.now.by.items }
    requires upper { v < length upper.now.by.items }
    ensures made { IfOk result (IsMadeOf (own_part sides.Under (number_at lower.now.by.items v) (number_at upper.now.by.items v) ∷ own_part sides.Over (number_at lower.now.by.items v) (number_at upper.now.by.items v) ∷ [])) }
    ensures shown { IfOk result (λ m. (f : Contents) (lits : List Lit) (t : Table) → IsSetting f lits t lower.now upper.now
        → Crosses (lower_of (limits_of lower.now upper.now) v) (upper_of (limits_of lower.now upper.now) v) → IsLemmaOf f lits m) }
{
    let parts = crossing_parts(alloc, lower.by[v], upper.by[v])?;
    lemma_of(alloc, parts)
}
