//! The laws of the simplex. The functions do nothing: each stands for the law that it ensures.
ghost use Rattle.std.specs.Prelude.{◌≡◌, ℕ, ◌<◌, List, IsTrue, length};
ghost use Rattle.rational.specs.Fraction.{Fraction};
ghost use Rattle.rational.specs.Linear.{Terms};
ghost use Rattle.rational.specs.Farkas.{Row};
ghost use Rattle.tableau.specs.Table.{Table, IsTidy, Solves, width, cell, is_basic};
ghost use Rattle.simplex_law.specs.Pairs.{at_small, plus_multiple, minus, HoldsSmall};
ghost use Rattle.simplex_law.specs.Config.{Limits, IsPlaced, IsSettled, IsConsistent, IsStart, IsStuck, IsNext, MeetsAll, value_of};
ghost use Rattle.simplex_law.specs.Readings.{Extends, IsClash};
ghost use Rattle.simplex_law.specs.Runs.{Reaches, IsSameConfiguration};
ghost use Rattle.simplex_law.specs.declared.bound.Side.{Side};
ghost use Rattle.simplex_law.specs.declared.pair.Pair.{Pair};

/// Where no lower bound exceeds the upper one, a check starts with each non-basic variable on its bounds.
pub fn start_is_placed()
    ensures { (l : Limits) (t : Table) (place : ℕ → Pair) → IsConsistent l (width t) → IsStart l t place → IsPlaced l t place }
{}

/// The values of a configuration solve its tableau, whatever the infinitesimal is.
pub fn values_solve_the_tableau()
    ensures { (t : Table) → IsTidy t → (place : ℕ → Pair) (d : Fraction) → Solves t (λ i. at_small (value_of t place i) d) }
{}

/// Where nothing is violated, each infinitesimal up to some positive one makes a point that meets every bound.
pub fn settled_values_make_a_point()
    ensures { (t : Table) → IsTidy t → (place : ℕ → Pair) (l : Limits) → IsPlaced l t place → IsSettled l t place → HoldsSmall (λ d. MeetsAll l (width t) (λ i. at_small (value_of t place i) d)) }
{}

/// Where a basic variable violates a bound and nothing helps it, the readings of the bounds that hold its row have a
/// refutation by Farkas.
pub fn stuck_row_is_refuted()
    ensures { (l : Limits) (terms : ℕ → Terms) (t : Table) → IsTidy t → (place : ℕ → Pair) → IsPlaced l t place → Extends terms t → (r : ℕ) (side : Side) → IsStuck l t place r side → (rows : List Row) × IsClash l terms rows }
{}

/// With a pivot each basic value moves by its cell of the variable that leaves, times the way of that variable to its bound.
pub fn values_move_with_the_leaving_variable()
    ensures { (l : Limits) (t : Table) (q : ℕ → Pair) (r e : ℕ) (after : Table) (q' : ℕ → Pair) → IsTidy t → IsNext l t q r e after q'
        → (i : ℕ) → i < width t → IsTrue (is_basic after i) → value_of after q' i ≡ plus_multiple (value_of t q i) (cell after i r) (minus (q' r) (value_of t q r)) }
{}

/// Pivots by Bland's rule never lead back to a configuration.
pub fn no_configuration_comes_twice()
    ensures { (l : Limits) (t : Table) (place : ℕ → Pair) → IsTidy t → IsPlaced l t place → IsConsistent l (width t) → (swaps : List (ℕ × ℕ)) (u : Table) (q : ℕ → Pair) → Reaches l t place swaps u q → 0 < length swaps → ¬ (IsSameConfiguration t place u q) }
{}
