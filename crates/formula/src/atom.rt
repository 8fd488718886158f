//! Atoms, literals and constraints: what a Boolean stands for, which way it is taken, and what it then says.
ghost use Rattle.std.specs.Prelude.{◌≡◌, not};

use frac128::Frac;
use lin::Lin;

/// `lin <= bound`, or `lin < bound` where it is strict. The expression has the constant 0 and the first coefficient 1.
#[derive(Debug, Drop)]
pub struct Atom {
    pub lin: Lin,
    pub strict: bool,
    pub bound: Frac,
}

/// What a literal of an atom says: `lin <= bound`, or `lin < bound` where it is strict.
#[derive(Debug, Drop)]
pub struct Constraint {
    pub lin: Lin,
    pub strict: bool,
    pub bound: Frac,
}

/// A Boolean, or where `pos` is false its negation. Booleans are numbered from 0.
#[derive(Clone, Copy, Debug, PartialEq, Eq)]
pub struct Lit {
    pub boolean: u64,
    pub pos: bool,
}

impl Lit {
    /// The negation.
    pub fn opposite(&self) -> Lit
        ensures boolean { result.boolean ≡ self.now.boolean }
        ensures pos { result.pos ≡ not self.now.pos }
    {
        Lit {
            boolean: self.boolean,
            pos: !self.pos,
        }
    }
}
