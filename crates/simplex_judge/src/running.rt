//! The pivots of a check: from each non-basic variable at its bound. Begin with `run`.
ghost use Rattle.std.specs.Prelude.{◌≡◌, ◌↔◌, ℕ, length, IfOk};
ghost use Rattle.rational.specs.Fraction.{Fraction};
ghost use Rattle.tableau.specs.Table.{width, Solves, IsTidy};
ghost use Rattle.simplex_law.specs.Config.{IsConsistent};
ghost use Rattle.simplex_check.specs.Checks.{limits};
ghost use Rattle.simplex_judge.specs.inside.Ran.{IsRan};

use frac128::Frac;
use simplex_check::{CheckFail, Verdict, check, start};
use simplex_law::{Bound, Pair};
use std::alloc::{AllocError, Global};
use tableau::Tableau;

/// Where the pivots led: the values of non-basic variables, what is known of the others, the pivots, and the answer.
#[derive(Drop)]
pub struct Ran {
    pub place: Vec<Pair>,
    pub known: Vec<Option<Pair>>,
    pub swaps: Vec<(u64, u64)>,
    pub answer: Result<Verdict, CheckFail>,
}

/// At most so many pivots.
pub fn run(
    alloc: Global,
    t: &mut Tableau,
    lower: &[Option<Bound>],
    upper: &[Option<Bound>],
    pivots: u64,
) -> Result<Ran, AllocError>
    requires lower { length lower.now ≡ width t.old }
    requires upper { length upper.now ≡ width t.old }
    requires consistent { IsConsistent (limits lower.now upper.now) (width t.old) }
    ensures wide { width t.new ≡ width t.old }
    ensures same { (point : ℕ → Fraction) → Solves t.old point ↔ Solves t.new point }
    ensures tidy { IsTidy t.new }
    ensures answers { IfOk result (IsRan (limits lower.now upper.now) t.old pivots t.new) }
{
    let n = t.width() as usize;
    let zero = Pair {
        main: Frac::ratio(0, 1),
        small: Frac::ratio(0, 1),
    };
    let mut place = vec![in alloc; zero; n]?;
    let mut known = vec![in alloc; None; n]?;
    start(lower, upper, &mut place, &mut known);
    let mut swaps = Vec::new(alloc);
    let answer = check(t, lower, upper, &mut place, &mut known, pivots, &mut swaps);
    let _width = t.width();
    Ok(Ran {
        place,
        known,
        swaps,
        answer,
    })
}
