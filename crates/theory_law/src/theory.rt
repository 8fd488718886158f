//! The theory of a formula's atoms, as the clause core sees it: literals are put and taken back in the order of a trail,
//! and `check` says whether some point meets what is asserted. Its ghost members are what is seen of it; the law at the
//! end says what a shown clause means.
ghost use Rattle.std.specs.Prelude.{◌≡◌, ℕ, ◌<◌, List, length, Bool, true, Some, None, OnOk, OnErr, IsSome, MatchResult, slice_get};
ghost use Rattle.std.specs.declared.option.Option.{Option};
ghost use Rattle.std.specs.List.{Any, Contains};
ghost use Rattle.rational.specs.Fraction.{Fraction};
ghost use Rattle.formula.specs.declared.atom.Lit.{Lit};
ghost use Rattle.formula.specs.declared.atom.Atom.{Atom};
ghost use Rattle.theory_law.specs.Splits.{at_most};
ghost use Rattle.formula.specs.Meets.{AreWhole};
ghost use Rattle.theory_law.specs.Readings.{Reads};

use crate::verdict::{StartFail, TheoryFail, Verdict};
use formula::{Formula, Lit};
use frac128::Frac;
use std::alloc::{AllocError, Global};

pub trait Theory: Sized + Drop {
    ghost use Rattle.theory_law.specs.declared.trace.Trace.{Trace};
    ghost use Rattle.theory_law.specs.Seen.{Seen, Starts, StartFails, IsAsserted, marks, with_event, with_atom, DropsLastMark};
    ghost use Rattle.theory_law.specs.Verdicts.{VerdictHolds, FailHolds, IsStuckAt, last_cut};

    /// What shows a lemma.
    type Why: Drop;

    ghost seen: { Self → Seen };

    /// The last cut, where nothing was put, taken back, learnt or checked since.
    ghost cut: { Self → Option (ℕ × Fraction) };

    /// What `point` gives, where the last check fixed it.
    ghost fixed: { Self → Option (List Fraction) };

    /// Whether it takes this atom over these counts.
    ghost takes: { List Bool → Atom → Bool };

    /// Whether it ever answers `Cut`.
    ghost cuts: { Bool };

    /// The clause is a lemma over these counts and atoms, by this evidence.
    ghost shown: { List Bool → List (Option Atom) → List Lit → Self.Why → Type 0 };

    /// A check over these counts and atoms that may make so many pivots is stuck with this trace.
    ghost stuck: { List Bool → List (Option Atom) → ℕ → Trace → Type 0 };

    /// Makes room for as many marks as there are Booleans. A check may make so many pivots.
    fn start(alloc: Global, formula: &Formula, pivots: u64) -> Result<Self, StartFail>
        ensures { MatchResult result (λ t. Starts takes formula.now pivots (seen t) (cut t)) (StartFails takes formula.now) };

    /// Appends the atom `var <= k` of the last cut, and makes room for one more mark.
    fn learn_atom(&mut self, var: u64, k: Frac) -> Result<(), AllocError>
        ensures learned { OnOk result (cut self.old ≡ Some (var, k) → seen self.new ≡ with_atom (seen self.old) (at_most var k)) }
        ensures kept { OnErr result (seen self.new ≡ seen self.old) }
        ensures cut { OnErr result (cut self.new ≡ cut self.old) };

    /// Asserts the literal of an atom. Takes no memory.
    fn put(&mut self, lit: Lit)
        requires atom { (a : Atom) × (slice_get (seen self.old).atoms lit.boolean ≡ Some (Some a)) }
        requires open { (s : Bool) → IsAsserted (seen self.old).asserted (record { boolean = lit.boolean; pos = s }) → ⊥ }
        ensures { seen self.new ≡ with_event (seen self.old) (Some lit) };

    /// Sets a mark. Takes no memory.
    fn mark(&mut self)
        requires { marks (seen self.old).asserted < length (seen self.old).atoms }
        ensures { seen self.new ≡ with_event (seen self.old) None };

    /// Drops the last mark, and takes back all that was put since. Takes no memory.
    fn back(&mut self)
        requires { Contains (seen self.old).asserted None }
        ensures { DropsLastMark (seen self.old) (seen self.new) };

    /// Whether the asserted readings can be met. With `full`, where every atom is asserted, by a point with whole counts.
    fn check(&mut self, full: bool) -> Result<Verdict<Self::Why>, TheoryFail>
        requires { full ≡ true → (b : ℕ) (a : Atom) → slice_get (seen self.old).atoms b ≡ Some (Some a) → (s : Bool) × IsAsserted (seen self.old).asserted (record { boolean = b; pos = s }) }
        ensures same { seen self.new ≡ seen self.old }
        ensures cut { cut self.new ≡ last_cut result }
        ensures answer { MatchResult result (VerdictHolds shown cuts (seen self.old) full (fixed self.new)) (FailHolds (IsStuckAt stuck (seen self.old))) };

    /// The value of a variable at the point of the last full check that answered `Fits` or `Cut`.
    fn point(&self, var: u64) -> Frac
        requires variable { var < length (seen self.now).counts }
        requires fixed { IsSome (fixed self.now) }
        ensures { (values : List Fraction) → fixed self.now ≡ Some values → slice_get values var ≡ Some result };

    /// At every point with whole counts some literal of a shown clause has a reading that holds.
    ghost shown_holds: { (counts : List Bool) (atoms : List (Option Atom)) (clause : List Lit) (why : Self.Why) → shown counts atoms clause why → (values : List Fraction) → length values ≡ length counts → AreWhole counts values → Any (Reads counts atoms values) clause };
}
