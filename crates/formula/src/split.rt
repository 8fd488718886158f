//! Splits: a new Boolean for `v <= k` of a count, also where an equal atom is there. Begin with `Formula::add_split`.
ghost use Rattle.std.specs.Prelude.{◌≡◌, ◌<◌, ◌++◌, ◌∷◌, [], length, slice_get, true, false, Some, IfOk, OnOk, OnErr, pos};
ghost use Rattle.rational.specs.Fraction.{whole, ◌+ℚ◌};
ghost use Rattle.rational.specs.Floor.{IsWhole};
ghost use Rattle.frac128.specs.Bounds.{IsFrac};
ghost use Rattle.lin.specs.Linear.{var};
ghost use Rattle.formula.specs.Contents.{with_boolean};

use crate::atom::Atom;
use crate::formula::Formula;
use frac128::Frac;
use lin::Lin;
use std::alloc::AllocError;

impl Formula {
    /// One more Boolean, of the atom `v <= k`, and its number.
    pub fn add_split(&mut self, v: u64, k: Frac) -> Result<u64, AllocError>
        requires count { slice_get self.old.counts v ≡ Some true }
        requires whole { IsWhole k }
        requires next { IsFrac (k +ℚ whole (pos 1)) }
        ensures number { IfOk result (λ b. b ≡ length self.old.atoms) }
        ensures added { OnOk result (self.new ≡ with_boolean (Some (record { lin = var v; strict = false; bound = k })) self.old) }
        ensures same { OnErr result (self.new ≡ self.old) }
    {
        let lin = Lin::var(self.alloc(), v)?;
        self.push_atom(Atom {
            lin,
            strict: false,
            bound: k,
        })
    }
}
