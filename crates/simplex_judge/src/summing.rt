//! The sum of a clash's lemma, which is made before the clash is answered. Begin with `sum`.
ghost use Rattle.std.specs.Prelude.{◌≡◌};
ghost use Rattle.farkas_law.specs.Lemma.{bare, IsShown};
ghost use Rattle.simplex_judge.specs.inside.Summed.{SumAnswers};

use formula::Formula;
use lin::LinFail;
use theory_law::Lemma;

/// Makes the sum, or tells the operation that passes.
pub fn sum(formula: &Formula, m: &Lemma) -> Result<(), LinFail>
    requires bare { formula.now ≡ bare formula.now.counts formula.now.atoms }
    requires shown { IsShown formula.now.counts formula.now.atoms m.now.clause m.now.coefs }
    ensures { SumAnswers formula.now m.now.clause m.now.coefs.list result }
{
    match formula.farkas(m.clause.lits(), m.coefs.list.as_slice()) {
        Ok(_holds) => Ok(()),
        Err(fail) => Err(fail),
    }
}
