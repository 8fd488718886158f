//! One step of the simplex: nothing is violated, or nothing helps, or a pivot by Bland's rule.
ghost use Rattle.std.specs.Prelude.{◌≡◌, length};
ghost use Rattle.tableau.specs.Table.{width, IsTidy};
ghost use Rattle.simplex_law.specs.Config.{pair_at, IsPlaced, IsConsistent, violated_pair};
ghost use Rattle.simplex_check.specs.Checks.{limits};
ghost use Rattle.simplex_check.specs.Known.{IsKnown};
ghost use Rattle.simplex_check.specs.inside.Choices.{StepAnswers};

use crate::choice::{entering, violated};
use crate::moving::{move_values, way_to};
use crate::number::zero;
use frac128::Wide;
use simplex_law::{Bound, Pair, Side};
use tableau::Tableau;

/// What a step found or did.
#[derive(Clone, Copy)]
pub(crate) enum Step {
    Settled,
    Stuck(u64, Side),
    Moved(u64, u64),
}

/// An operation of a value or of a pivot passes.
#[derive(Clone, Copy)]
pub(crate) enum StepFail {
    Value(Wide),
    Pivot(Wide),
}

// The bound that is violated, as a pair.
fn bound_pair(side: Side, lower: &Option<Bound>, upper: &Option<Bound>) -> Pair
    ensures { result ≡ violated_pair side lower.now upper.now }
{
    let zero = Pair {
        main: zero(),
        small: zero(),
    };
    match side {
        Side::Under => match lower {
            Some(b) => b.lower_pair(),
            None => zero,
        },
        Side::Over => match upper {
            Some(b) => b.upper_pair(),
            None => zero,
        },
    }
}

/// One step.
pub(crate) fn advance(
    t: &mut Tableau,
    lower: &[Option<Bound>],
    upper: &[Option<Bound>],
    place: &mut [Pair],
    known: &mut [Option<Pair>],
) -> Result<Step, StepFail>
    requires lower { length lower.now ≡ width t.old }
    requires upper { length upper.now ≡ width t.old }
    requires places { length place.old ≡ width t.old }
    requires many { length known.old ≡ width t.old }
    requires consistent { IsConsistent (limits lower.now upper.now) (width t.old) }
    requires placed { IsPlaced (limits lower.now upper.now) t.old (pair_at place.old) }
    requires known { IsKnown t.old (pair_at place.old) known.old }
    ensures tidy { IsTidy t.old }
    ensures known { IsKnown t.new (pair_at place.new) known.new }
    ensures answers { StepAnswers (limits lower.now upper.now) t.old place.old t.new place.new result }
{
    let (r, side) = match violated(t, lower, upper, place, known) {
        Ok(Some((r, side))) => (r, side),
        Ok(None) => return Ok(Step::Settled),
        Err(w) => return Err(StepFail::Value(w)),
    };
    let Some(e) = entering(t, lower, upper, place, r, side) else {
        return Ok(Step::Stuck(r, side));
    };
    let bound = bound_pair(side, &lower[r as usize], &upper[r as usize]);
    let way = way_to(&bound, &known[r as usize]);
    match t.pivot(r, e) {
        Ok(()) => {}
        Err(w) => return Err(StepFail::Pivot(w)),
    }
    known[e as usize] = Some(place[e as usize]);
    place[r as usize] = bound;
    move_values(t, r, &way, known);
    Ok(Step::Moved(r, e))
}
