//! Clauses: lists of literals, of which a point makes one true.
use crate::atom::Lit;
use sqlite_items::Items;
use std::marker::Model;

/// Literals in order, which contracts see as their list.
#[derive(Debug, Drop)]
pub struct Clause {
    lits: Items<Lit>,
}

impl Model for Clause {
    ghost use Rattle.std.specs.Prelude.{List};
    ghost use Rattle.std.specs.Coded.{coded_list};
    ghost use Rattle.formula.specs.declared.atom.Lit.{Lit};
    ghost use Rattle.formula.specs.contracts.atom.Lit as row;

    ghost Value = { List Lit };

    ghost coded = { coded_list row.the_row.coded };

    ghost view = { λ c. c.lits };
}

impl Clause {
    ghost use Rattle.std.specs.Prelude.{◌≡◌};

    /// The list as it is given.
    pub fn new(lits: Vec<Lit>) -> Clause
        ensures { result ≡ lits.items }
    {
        Clause {
            lits: Items::from_vec(lits),
        }
    }

    pub fn lits(&self) -> &[Lit]
        ensures { result.now ≡ self.now }
    {
        self.lits.as_slice()
    }
}
