//! The numbered literal of a comparison with 0. Begin with `literal_of`.
ghost use Rattle.std.specs.Prelude.{length};
ghost use Rattle.lin.specs.Linear.{AreBelow};
ghost use Rattle.encode_rows.specs.Literals.{LiteralAnswers};

use crate::bound::{Bound, bound_of};
use crate::clause::Truth;
use formula::{Formula, Lit};
use lin::{Lin, LinFail};
use std::alloc::Global;

/// The literal of `l < 0` where it is strict, and else of `l <= 0`. Its atom is made where no equal one is there.
pub fn literal_of(
    alloc: Global,
    formula: &mut Formula,
    l: &Lin,
    strict: bool,
) -> Result<Truth, LinFail>
    requires { AreBelow (length formula.old.counts) l.now.terms }
    ensures { LiteralAnswers formula.old strict l.now formula.new result }
{
    match bound_of(alloc, formula, l, strict)? {
        Bound::Always => Ok(Truth::Yes),
        Bound::Never => Ok(Truth::No),
        Bound::Of(pos, atom) => {
            let boolean = formula.add_atom(atom)?;
            Ok(Truth::Of(Lit { boolean, pos }))
        }
    }
}
