//! `Named`: a ground atom or a ground function.
ghost use Rattle.std.specs.Prelude.{◌++◌};
ghost use Rattle.std.specs.Hash as fed;
ghost use Rattle.ground_numbers.specs.Numbers.{same};
ghost use Rattle.ground_numbers.specs.inside.Same.{same_partial, same_equiv, same_fed};

use sqlite_items::Items;
use std::hash::{Hash, Hasher};

/// A predicate or a function with its arguments, all by their numbers.
#[derive(Debug, Drop)]
pub struct Named {
    pub symbol: u32,
    pub args: Items<u32>,
}

impl PartialEq for Named {
    ghost eq = { same };

    ghost laws = { same_partial };

    fn eq(&self, other: &Named) -> bool {
        self.symbol == other.symbol && self.args.as_slice() == other.args.as_slice()
    }
}

impl Eq for Named {
    ghost laws = { same_equiv };
}

impl Hash for Named {
    ghost hash_input = { λ k. fed.u32 k.symbol ++ fed.slice fed.u32 k.args };

    ghost respects_eq = { same_fed };

    fn hash<H: Hasher>(&self, state: &mut H) {
        state.write_u32(self.symbol);
        self.args.as_slice().hash(state);
    }
}
