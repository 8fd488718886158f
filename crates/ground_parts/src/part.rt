//! What an expression of an instance comes to: a constant where it reads no changing function, else a linear expression over
//! function numbers.
ghost use Rattle.std.specs.Prelude.{◌≡◌, IfOk};
ghost use Rattle.ground_parts.specs.inside.Parts.{negative_form};

use frac128::Frac;
use lin::Lin;
use std::alloc::AllocError;

/// A constant, or a linear expression.
#[derive(Debug, Drop)]
pub enum Part {
    Constant(Frac),
    Linear(Lin),
}

impl Part {
    pub(crate) fn neg(&self) -> Result<Part, AllocError>
        ensures { IfOk result (λ p. p ≡ negative_form self.now) }
    {
        match self {
            Part::Constant(a) => Ok(Part::Constant(a.neg())),
            Part::Linear(l) => Ok(Part::Linear(l.neg()?)),
        }
    }
}
