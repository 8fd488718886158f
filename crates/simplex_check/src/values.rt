//! The values of all variables: what is known or computed of the basic ones, and the places of the others.
ghost use Rattle.std.specs.Prelude.{◌≡◌, ◌<◌, IsTrue, length};
ghost use Rattle.tableau.specs.Table.{width};
ghost use Rattle.simplex_law.specs.Config.{pair_at};
ghost use Rattle.simplex_check.specs.Known.{IsKnown};
ghost use Rattle.simplex_check.specs.Checks.{ValuesAnswer};
ghost use Rattle.simplex_check.specs.inside.Choices.{ValueAtAnswers};

use crate::value::value;
use frac128::Wide;
use simplex_law::Pair;
use tableau::Tableau;

fn value_at(t: &Tableau, place: &[Pair], known: &mut [Option<Pair>], i: u64) -> Result<Pair, Wide>
    requires row { i < width t.now }
    requires places { length place.now ≡ width t.now }
    requires many { length known.old ≡ width t.now }
    requires known { IsKnown t.now (pair_at place.now) known.old }
    ensures known { IsKnown t.now (pair_at place.now) known.new }
    ensures answers { ValueAtAnswers t.now (pair_at place.now) i result }
{
    if t.is_basic(i) {
        return value(t, place, known, i);
    }
    Ok(place[i as usize])
}

/// The value of each variable, put into `values`.
pub fn all_values(
    t: &Tableau,
    place: &[Pair],
    known: &mut [Option<Pair>],
    values: &mut [Pair],
) -> Result<(), Wide>
    requires places { length place.now ≡ width t.now }
    requires many { length known.old ≡ width t.now }
    requires known { IsKnown t.now (pair_at place.now) known.old }
    requires room { length values.old ≡ width t.now }
    ensures known { IsKnown t.now (pair_at place.now) known.new }
    ensures answers { ValuesAnswer t.now (pair_at place.now) (pair_at values.new) result }
{
    for i in 0..t.width() {
        values[i as usize] = value_at(t, place, known, i)?;
    }
    Ok(())
}
