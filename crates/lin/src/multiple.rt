//! Multiples: each coefficient and the constant times one factor. Begin with `Lin::scale`.
ghost use Rattle.std.specs.Prelude.{◌≡◌, map};
ghost use Rattle.lin.specs.Normal.{IsNormal, collected};
ghost use Rattle.lin.specs.Linear.{times, scale};
ghost use Rattle.lin.specs.Operations.{AnswersInMemory, multiplying};
ghost use Rattle.lin.specs.Made.{scale_ops};

use crate::failure::LinFail;
use crate::linear::{Lin, made};
use crate::sum::push_unless_zero;
use frac128::Frac;
use sqlite_items::Items;
use std::alloc::Global;

impl Lin {
    /// The multiple. In each product `by` stands first; the constant's is the last.
    pub fn scale(&self, by: &Frac) -> Result<Lin, LinFail>
        ensures { AnswersInMemory (scale_ops by.now self.now) (scale by.now self.now) result }
    {
        let terms = multiples(self.alloc(), by, self.all_terms())?;
        let constant = by.mul(&self.constant())?;
        Ok(made(self.alloc(), terms, constant))
    }
}

fn multiples(alloc: Global, by: &Frac, terms: &[(u64, Frac)]) -> Result<Items<(u64, Frac)>, LinFail>
    requires { IsNormal terms.now }
    ensures { AnswersInMemory (map (λ t. multiplying by.now t.1) terms.now) (collected (times by.now terms.now)) result }
{
    let mut out = Vec::with_capacity(alloc, terms.len())?;
    for term in terms {
        let product = by.mul(&term.1)?;
        push_unless_zero(&mut out, (term.0, product))?;
    }
    Ok(Items::from_vec(out))
}
