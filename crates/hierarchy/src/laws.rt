//! What follows from the definitions: laws, as functions without a body whose contracts state them.
ghost use Rattle.std.specs.Prelude.{ℕ, ◌<◌, List, length, IsTrue};
ghost use Rattle.hierarchy.specs.Hierarchy.{IsHierarchy, is_below, IsBelow};

/// What `is_below` finds is below, and it finds all that is: as many steps as there are types are enough.
#[tactic(auto, using(crate::proofs::BelowLaws::sound, crate::proofs::BelowLaws::complete))]
pub fn is_below_is_the_relation()
    ensures sound { (parents : List ℕ) (t u : ℕ) → IsTrue (is_below parents t u) → IsBelow parents t u }
    ensures complete { (parents : List ℕ) (t u : ℕ) → IsHierarchy parents → t < length parents → IsBelow parents t u → IsTrue (is_below parents t u) }
{}

/// Each type is its own, or below it.
#[tactic(auto, using(crate::proofs::BelowLaws::reflexive))]
pub fn is_below_is_reflexive()
    ensures { (parents : List ℕ) (t : ℕ) → IsTrue (is_below parents t t) }
{}

/// What is below a type that is below another is below that.
#[tactic(auto, using(crate::proofs::BelowLaws::transitive))]
pub fn is_below_is_transitive()
    ensures { (parents : List ℕ) (t u v : ℕ) → IsHierarchy parents → t < length parents → IsTrue (is_below parents t u) → IsTrue (is_below parents u v)
        → IsTrue (is_below parents t v) }
{}
