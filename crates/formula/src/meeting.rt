//! Does a point meet the formula? The clauses are tested in order, and then the atoms in rising Boolean, up to the first that
//! fails or whose value passes 128 bits. Begin with `Formula::meets`, which takes no memory.
ghost use Rattle.std.specs.Prelude.{◌≡◌, ◌<◌, ◌≤◌, length, true};
ghost use Rattle.std.specs.List.{list_any, list_all};
ghost use Rattle.lin.specs.Linear.{point_of};
ghost use Rattle.formula.specs.Atoms.{IsAtom};
ghost use Rattle.formula.specs.Contents.{IsBoolean, is_clause};
ghost use Rattle.formula.specs.Reading.{reading, reading_where};
ghost use Rattle.formula.specs.Meets.{IsPointOf, MeetsAnswers, HoldsAnswers, are_met, is_true};

use crate::atom::{Atom, Lit};
use crate::clause::Clause;
use crate::formula::Formula;
use crate::point::Point;
use crate::reading::{denied_bound, is_in_order};
use frac128::{Frac, Wide};

impl Formula {
    /// Whether each clause has a literal that is true in the point, and the reading of each true literal of an atom holds.
    pub fn meets(&self, p: &Point) -> Result<bool, Wide>
        requires { IsPointOf self.now p.now }
        ensures { MeetsAnswers self.now p.now result }
    {
        let truth = p.truth.as_slice();
        if !are_met(truth, self.clauses()) {
            return Ok(false);
        }
        let values = p.values.as_slice();
        let atoms = self.atoms();
        for (b, atom) in atoms.iter().enumerate() {
            if !holds_where(self.counts(), atom, truth[b], values)? {
                return Ok(false);
            }
        }
        Ok(true)
    }
}

fn are_met(truth: &[bool], clauses: &[Clause]) -> bool
    requires { list_all (is_clause (length truth.now)) clauses.now ≡ true }
    ensures { result ≡ are_met truth.now clauses.now }
{
    for clause in clauses {
        if !is_met(truth, clause.lits()) {
            return false;
        }
    }
    true
}

fn is_met(truth: &[bool], lits: &[Lit]) -> bool
    requires { is_clause (length truth.now) lits.now ≡ true }
    ensures { result ≡ list_any (is_true truth.now) lits.now }
{
    for l in lits {
        if truth[l.boolean as usize] == l.pos {
            return true;
        }
    }
    false
}

// Whether the atom, if there is one, holds at the values as it is true or false.
fn holds_where(counts: &[bool], atom: &Option<Atom>, pos: bool, at: &[Frac]) -> Result<bool, Wide>
    requires atom { IsBoolean counts.now atom.now }
    requires enough { length counts.now ≤ length at.now }
    ensures { HoldsAnswers (point_of at.now) (reading_where counts.now atom.now pos) result }
{
    match atom {
        None => Ok(true),
        Some(atom) => holds(counts, atom, pos, at),
    }
}

fn holds(counts: &[bool], atom: &Atom, pos: bool, at: &[Frac]) -> Result<bool, Wide>
    requires atom { IsAtom counts.now atom.now }
    requires enough { length counts.now ≤ length at.now }
    ensures { HoldsAnswers (point_of at.now) (reading counts.now atom.now pos) result }
{
    if pos {
        let value = atom.lin.value(at)?;
        return Ok(is_in_order(&value, atom.strict, &atom.bound));
    }
    let (strict, bound) = denied_bound(counts, atom);
    let value = atom.lin.neg_value(at)?;
    Ok(is_in_order(&value, strict, &bound))
}
