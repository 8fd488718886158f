//! Quotients: each coefficient and the constant divided by one number. Begin with `Lin::div`.
ghost use Rattle.std.specs.Prelude.{◌≡◌, ◌≢◌, map, pos};
ghost use Rattle.rational.specs.Fraction.{inv_ℚ};
ghost use Rattle.lin.specs.Normal.{IsNormal, collected};
ghost use Rattle.lin.specs.Linear.{times, scale};
ghost use Rattle.lin.specs.Operations.{AnswersInMemory, dividing};
ghost use Rattle.lin.specs.Made.{div_ops};

use crate::failure::LinFail;
use crate::linear::{Lin, made};
use crate::sum::push_unless_zero;
use frac128::Frac;
use sqlite_items::Items;
use std::alloc::Global;

impl Lin {
    /// The quotient: the multiple by the inverse, made by divisions. The constant's is the last.
    pub fn div(&self, by: &Frac) -> Result<Lin, LinFail>
        requires { by.now.num ≢ pos 0 }
        ensures { AnswersInMemory (div_ops by.now self.now) (scale (inv_ℚ by.now) self.now) result }
    {
        let terms = quotients(self.alloc(), by, self.all_terms())?;
        let constant = self.constant().div(by)?;
        Ok(made(self.alloc(), terms, constant))
    }
}

fn quotients(alloc: Global, by: &Frac, terms: &[(u64, Frac)]) -> Result<Items<(u64, Frac)>, LinFail>
    requires divisor { by.now.num ≢ pos 0 }
    requires normal { IsNormal terms.now }
    ensures { AnswersInMemory (map (λ t. dividing t.1 by.now) terms.now) (collected (times (inv_ℚ by.now) terms.now)) result }
{
    let mut out = Vec::with_capacity(alloc, terms.len())?;
    for term in terms {
        let quotient = term.1.div(by)?;
        push_unless_zero(&mut out, (term.0, quotient))?;
    }
    Ok(Items::from_vec(out))
}
