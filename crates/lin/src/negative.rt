//! Negatives, which always fit. Begin with `Lin::neg`.
ghost use Rattle.std.specs.Prelude.{◌≡◌, length, map, IfOk};
ghost use Rattle.rational.specs.Fraction.{neg_ℚ};
ghost use Rattle.lin.specs.Linear.{AreBelow, point_of, value_of};
ghost use Rattle.lin.specs.Negative.{negative};
ghost use Rattle.lin.specs.Operations.{AnswersInOrder};
ghost use Rattle.lin.specs.Made.{value_ops};

use crate::linear::{Lin, made};
use crate::sum::push;
use frac128::{Frac, Wide};
use sqlite_items::Items;
use std::alloc::{AllocError, Global};

impl Lin {
    /// The negative.
    pub fn neg(&self) -> Result<Lin, AllocError>
        ensures { IfOk result (λ l. l ≡ negative self.now) }
    {
        let terms = negatives(self.alloc(), self.all_terms())?;
        let constant = self.constant();
        Ok(made(self.alloc(), terms, constant.neg()))
    }

    /// The value of the negative, by the operations that `value` makes of it. It takes no memory.
    pub fn neg_value(&self, at: &[Frac]) -> Result<Frac, Wide>
        requires { AreBelow (length at.now) self.now.terms }
        ensures { AnswersInOrder (value_ops (point_of at.now) (negative self.now)) (value_of (point_of at.now) (negative self.now)) result }
    {
        let constant = self.constant();
        let mut sum = constant.neg();
        let terms = self.all_terms();
        for term in terms {
            let coefficient = term.1.neg();
            let product = coefficient.mul(&at[term.0 as usize])?;
            sum = sum.add(&product)?;
        }
        Ok(sum)
    }
}

fn negatives(alloc: Global, terms: &[(u64, Frac)]) -> Result<Items<(u64, Frac)>, AllocError>
    ensures { IfOk result (λ ts. ts ≡ map (λ t. (t.0, neg_ℚ t.1)) terms.now) }
{
    let mut out = Vec::with_capacity(alloc, terms.len())?;
    for term in terms {
        push(&mut out, (term.0, term.1.neg()))?;
    }
    Ok(Items::from_vec(out))
}
