//! The greatest common divisor and its laws, and below `proofs/` a normaliser that proves identities, equations and
//! inequalities over the integers and the fractions in one line each. Begin with `proofs/Solve.antt`.
#![tactic(auto)]

ghost use Prim.Native.Nat.{◌∣◌};
ghost use Rattle.std.specs.Prelude.{◌≡◌, ◌*◌, ℕ};
ghost use Rattle.algebra.specs.Gcd.{gcd};

/// The greatest common divisor divides both numbers.
#[tactic(auto, using(crate::proofs::GcdLaws::gcd_divides_left, crate::proofs::GcdLaws::gcd_divides_right))]
pub fn gcd_divides_both()
    ensures left { (a b : ℕ) → gcd a b ∣ a }
    ensures right { (a b : ℕ) → gcd a b ∣ b }
{}

/// What divides both numbers divides their greatest common divisor.
#[tactic(auto, using(crate::proofs::GcdLaws::gcd_greatest))]
pub fn gcd_is_greatest()
    ensures { (a b d : ℕ) → d ∣ a → d ∣ b → d ∣ gcd a b }
{}

/// Euclid's lemma: what divides a product and has no factor in common with one part divides the other.
#[tactic(auto, using(crate::proofs::GcdLaws::cancel))]
pub fn euclids_lemma()
    ensures { (a b d : ℕ) → gcd a d ≡ 1 → d ∣ a * b → d ∣ b }
{}
