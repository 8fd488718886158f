//! The law of the infinitesimal. The function does nothing: it stands for the law that it ensures.
ghost use Rattle.std.specs.Prelude.{ℕ, ◌<◌};
ghost use Rattle.rational.specs.Fraction.{Fraction, IsPositive};
ghost use Rattle.simplex_law.specs.Pairs.{at_small};
ghost use Rattle.simplex_law.specs.Config.{Limits, IsOn, MeetsAll};
ghost use Rattle.simplex_law.specs.declared.pair.Pair.{Pair};
ghost use Rattle.simplex_point.specs.Point.{IsInfinitesimal};

/// It is positive, and where each value is on its bounds, the values at it meet every bound.
pub fn the_infinitesimal_makes_a_point()
    ensures { (l : Limits) (value : ℕ → Pair) (n : ℕ) (d : Fraction) → IsInfinitesimal l value n d → ((i : ℕ) → i < n → IsOn l i (value i)) → IsPositive d × MeetsAll l n (λ i. at_small (value i) d) }
{}
