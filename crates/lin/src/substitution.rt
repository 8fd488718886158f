//! Variables replaced by expressions, and by values. Begin with `Lin::value`, which takes no memory.
ghost use Rattle.std.specs.Prelude.{length};
ghost use Rattle.lin.specs.Linear.{AreBelow, point_of, value_of, replacement_of, subst};
ghost use Rattle.lin.specs.Operations.{AnswersInOrder, AnswersInMemory};
ghost use Rattle.lin.specs.Made.{value_ops, subst_ops};

use crate::failure::LinFail;
use crate::linear::Lin;
use frac128::{Frac, Wide};

impl Lin {
    /// The value at a point, which has a value for each variable. It starts from the constant.
    pub fn value(&self, at: &[Frac]) -> Result<Frac, Wide>
        requires { AreBelow (length at.now) self.now.terms }
        ensures { AnswersInOrder (value_ops (point_of at.now) self.now) (value_of (point_of at.now) self.now) result }
    {
        let mut sum = self.constant();
        let terms = self.all_terms();
        for term in terms {
            let product = term.1.mul(&at[term.0 as usize])?;
            sum = sum.add(&product)?;
        }
        Ok(sum)
    }

    /// The expression with each variable replaced by that of its number in `of`. It starts from the constant, and makes and
    /// adds one multiple for each term, in rising variable.
    pub fn subst(&self, of: &[Lin]) -> Result<Lin, LinFail>
        requires { AreBelow (length of.now) self.now.terms }
        ensures { AnswersInMemory (subst_ops (replacement_of of.now) self.now) (subst (replacement_of of.now) self.now) result }
    {
        let mut sum = Lin::fixed(self.alloc(), self.constant());
        let terms = self.all_terms();
        for term in terms {
            let part = of[term.0 as usize].scale(&term.1)?;
            sum = sum.add(&part)?;
        }
        Ok(sum)
    }
}
