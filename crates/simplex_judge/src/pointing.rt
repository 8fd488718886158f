//! The point of a settled configuration. Begin with `point`.
ghost use Rattle.std.specs.Prelude.{◌≡◌, ◌≤◌, ◌++◌, ◌∷◌, [], length, OnOk};
ghost use Rattle.simplex_law.specs.Config.{pair_at};
ghost use Rattle.simplex_check.specs.Checks.{limits};
ghost use Rattle.simplex_judge.specs.inside.Pointed.{ValuesAnswer, PointAnswers};

use frac128::{Frac, Wide};
use simplex_law::{Bound, Pair};
use simplex_point::{at_small, infinitesimal};
use std::alloc::{AllocError, Global};
use thiserror::Error;

/// Why there is no point.
#[derive(Clone, Copy, Debug, Error)]
pub enum PointFail {
    #[error("an operation of the point passes 128 bits")]
    Wide(Wide),
    #[error("out of memory")]
    Memory,
}

impl From<AllocError> for PointFail {
    ghost use Rattle.std.specs.Prelude.{◌≡◌};
    ghost use Rattle.simplex_judge.specs.declared.pointing.PointFail.TheVariants as fail;

    ghost from_gives = { λ _ e. e ≡ fail.Memory };

    fn from(_error: AllocError) -> PointFail {
        PointFail::Memory
    }
}

fn push(values: &mut Vec<Frac>, x: Frac) -> Result<(), AllocError>
    ensures { OnOk result (values.new.items ≡ values.old.items ++ x ∷ []) }
{
    values.push(x)?;
    Ok(())
}

fn values(alloc: Global, pairs: &[Pair], vars: usize, d: &Frac) -> Result<Vec<Frac>, PointFail>
    requires { vars ≤ length pairs.now }
    ensures { ValuesAnswer (pair_at pairs.now) vars d.now result }
{
    let mut values = Vec::new(alloc);
    for i in 0..vars {
        match at_small(&pairs[i], d) {
            Ok(x) => push(&mut values, x)?,
            Err(w) => return Err(PointFail::Wide(w)),
        }
    }
    Ok(values)
}

/// The values of the first variables where the infinitesimal is what the bounds of all ask for.
pub fn point(
    alloc: Global,
    lower: &[Option<Bound>],
    upper: &[Option<Bound>],
    pairs: &[Pair],
    vars: usize,
) -> Result<Vec<Frac>, PointFail>
    requires lower { length lower.now ≡ length pairs.now }
    requires upper { length upper.now ≡ length pairs.now }
    requires vars { vars ≤ length pairs.now }
    ensures { PointAnswers (limits lower.now upper.now) (pair_at pairs.now) (length pairs.now) vars result }
{
    match infinitesimal(lower, upper, pairs) {
        Ok(d) => values(alloc, pairs, vars, &d),
        Err(w) => Err(PointFail::Wide(w)),
    }
}
