//! The start of a check: bounds that cross, and else each variable at its lower bound, or at its upper one, or at 0.
ghost use Rattle.std.specs.Prelude.{◌≡◌, ◌↔◌, ◌<◌, ℕ, IsTrue, length};
ghost use Rattle.tableau.specs.Table.{Table, width};
ghost use Rattle.simplex_law.specs.Config.{pair_at, start_pair, IsStart};
ghost use Rattle.simplex_law.specs.declared.pair.Pair.{Pair};
ghost use Rattle.simplex_check.specs.Checks.{limits};
ghost use Rattle.simplex_check.specs.Known.{IsKnown};
ghost use Rattle.simplex_check.specs.Starts.{Crosses, CrossingAnswers};

use crate::number::zero;
use simplex_law::{Bound, Pair, is_over};

fn crosses(lower: &Option<Bound>, upper: &Option<Bound>) -> bool
    ensures { IsTrue result ↔ Crosses lower.now upper.now }
{
    match lower {
        None => false,
        Some(b) => is_over(upper, &b.lower_pair()),
    }
}

/// The least variable whose lower bound exceeds its upper one.
pub fn crossing(lower: &[Option<Bound>], upper: &[Option<Bound>]) -> Option<usize>
    requires { length upper.now ≡ length lower.now }
    ensures { CrossingAnswers (limits lower.now upper.now) (length lower.now) result }
{
    for i in 0..lower.len() {
        if crosses(&lower[i], &upper[i]) {
            return Some(i);
        }
    }
    None
}

fn start_pair(lower: &Option<Bound>, upper: &Option<Bound>) -> Pair
    ensures { result ≡ start_pair lower.now upper.now }
{
    match (lower, upper) {
        (Some(b), _) => b.lower_pair(),
        (None, Some(b)) => b.upper_pair(),
        (None, None) => Pair {
            main: zero(),
            small: zero(),
        },
    }
}

fn put_at_bounds(lower: &[Option<Bound>], upper: &[Option<Bound>], place: &mut [Pair])
    requires lower { length lower.now ≡ length place.old }
    requires upper { length upper.now ≡ length place.old }
    ensures { (t : Table) → width t ≡ length place.old → IsStart (limits lower.now upper.now) t (pair_at place.new) }
{
    for j in 0..place.len() {
        place[j] = start_pair(&lower[j], &upper[j]);
    }
}

fn forget(known: &mut [Option<Pair>])
    ensures { (t : Table) (place : ℕ → Pair) → width t ≡ length known.old → IsKnown t place known.new }
{
    for i in 0..known.len() {
        known[i] = None;
    }
}

/// Puts each variable at its bound, and forgets the values of basic variables.
pub fn start(
    lower: &[Option<Bound>],
    upper: &[Option<Bound>],
    place: &mut [Pair],
    known: &mut [Option<Pair>],
)
    requires lower { length lower.now ≡ length place.old }
    requires upper { length upper.now ≡ length place.old }
    ensures placed { (t : Table) → width t ≡ length place.old → IsStart (limits lower.now upper.now) t (pair_at place.new) }
    ensures known { (t : Table) (q : ℕ → Pair) → width t ≡ length known.old → IsKnown t q known.new }
{
    put_at_bounds(lower, upper, place);
    forget(known);
}
