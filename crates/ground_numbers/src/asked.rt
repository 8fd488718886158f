//! A question for a ground thing, whose arguments stand with the caller.
ghost use Rattle.std.specs.Prelude.{◌++◌};
ghost use Rattle.std.specs.Hash as fed;
ghost use Rattle.ground_numbers.specs.Numbers.{named, same};
ghost use Rattle.ground_numbers.specs.inside.Same.{asked_partial, asked_equiv, asked_fed, same_fed, same_respects};

use crate::named::Named;
use indexmap::Equivalent;
use std::hash::{Hash, Hasher};

#[derive(Clone, Copy)]
pub(crate) struct Asked<'a> {
    pub(crate) symbol: u32,
    pub(crate) args: &'a [u32],
}

impl<'a> PartialEq for Asked<'a> {
    ghost eq = { λ q r. same (named q.symbol q.args.now) (named r.symbol r.args.now) };

    ghost laws = { asked_partial (λ q. named q.symbol q.args.now) };

    fn eq(&self, other: &Asked<'a>) -> bool {
        self.symbol == other.symbol && self.args == other.args
    }
}

impl<'a> Eq for Asked<'a> {
    ghost laws = { asked_equiv (λ q. named q.symbol q.args.now) };
}

impl<'a> Hash for Asked<'a> {
    ghost hash_input = { λ q. fed.u32 q.symbol ++ fed.slice fed.u32 q.args.now };

    ghost respects_eq = { λ q r. same_fed (named q.symbol q.args.now) (named r.symbol r.args.now) };

    fn hash<H: Hasher>(&self, state: &mut H) {
        state.write_u32(self.symbol);
        self.args.hash(state);
    }
}

impl<'a> Equivalent<Named> for Asked<'a> {
    ghost equivalent = { λ q k. same k (named q.symbol q.args.now) };

    ghost respects_hash = { λ q k h. asked_fed (named q.symbol q.args.now) k h };

    ghost respects_eq = { λ q x y. same_respects (named q.symbol q.args.now) x y };

    fn equivalent(&self, key: &Named) -> bool {
        key.symbol == self.symbol && key.args.as_slice() == self.args
    }
}
