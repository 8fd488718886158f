//! What a step of the log changes in the core. Begin with `take`.
ghost use Rattle.std.specs.Prelude.{◌≡◌, true, length, OnOk, IfOk, Some};
ghost use Rattle.formula.specs.Contents.{is_clause, with_boolean, with_clause};
ghost use Rattle.theory_law.specs.Splits.{CanSplit, at_most};
ghost use Rattle.theory_law.specs.Log.{after, IsSound};
ghost use Rattle.clause_core.specs.inside.Taking.{IsOfCut};

use crate::Core;
use crate::back::{add, restart};
use formula::Clause;
use frac128::Frac;
use std::alloc::AllocError;
use theory_law::{LogStep, Theory};

/// Makes the next Boolean mean `var <= k`.
fn split<T: Theory>(core: Core<T>, var: u64, k: Frac) -> Result<Core<T>, AllocError>
    requires cut { T.cut core.theory ≡ Some (var, k) }
    requires splits { CanSplit core.formula.counts var k }
    ensures formula { IfOk result (λ c. c.formula ≡ with_boolean (Some (at_most var k)) core.formula) }
    ensures pivots { IfOk result (λ c. (T.seen c.theory).pivots ≡ (T.seen core.theory).pivots) }
{
    let Core {
        alloc,
        mut formula,
        mut theory,
        mut trail,
        told,
        mut agenda,
    } = core;
    theory.learn_atom(var, k)?;
    formula.add_split(var, k)?;
    trail.add_boolean()?;
    agenda.add(k.num() == 0)?;
    Ok(Core {
        alloc,
        formula,
        theory,
        trail,
        told,
        agenda,
    })
}

/// Adds a clause of the log, raises the activity of what stands in the clauses that it comes from, and restarts in time.
fn teach<T: Theory>(core: &mut Core<T>, clause: Clause, hints: &[u64]) -> Result<(), AllocError>
    requires { is_clause (length core.old.formula.atoms) clause ≡ true }
    ensures formula { OnOk result (core.new.formula ≡ with_clause clause core.old.formula) }
    ensures pivots { (T.seen core.new.theory).pivots ≡ (T.seen core.old.theory).pivots }
{
    core.agenda.raise(clause.lits());
    core.agenda.raise_all(core.formula.clauses(), hints);
    let due = core.agenda.is_due();
    add(core, clause)?;
    if due {
        restart(core);
    }
    Ok(())
}

/// Adds a clause of the log.
fn taught<T: Theory>(core: Core<T>, clause: Clause, hints: &[u64]) -> Result<Core<T>, AllocError>
    requires { is_clause (length core.formula.atoms) clause ≡ true }
    ensures formula { IfOk result (λ c. c.formula ≡ with_clause clause core.formula) }
    ensures pivots { IfOk result (λ c. (T.seen c.theory).pivots ≡ (T.seen core.theory).pivots) }
{
    let mut core = core;
    match teach(&mut core, clause, hints) {
        Ok(()) => Ok(core),
        Err(fail) => Err(fail),
    }
}

/// Makes the next Boolean mean `var <= k`, and goes back to the start.
fn parted<T: Theory>(core: Core<T>, var: u64, k: Frac) -> Result<Core<T>, AllocError>
    requires cut { T.cut core.theory ≡ Some (var, k) }
    requires splits { CanSplit core.formula.counts var k }
    ensures formula { IfOk result (λ c. c.formula ≡ with_boolean (Some (at_most var k)) core.formula) }
    ensures pivots { IfOk result (λ c. (T.seen c.theory).pivots ≡ (T.seen core.theory).pivots) }
{
    let mut core = split(core, var, k)?;
    restart(&mut core);
    Ok(core)
}

/// Adds the clause of a step, or makes its split and goes back to the start.
pub(crate) fn take<T: Theory>(core: Core<T>, step: LogStep<T::Why>) -> Result<Core<T>, AllocError>
    requires sound { IsSound T.shown core.formula step }
    requires cut { IsOfCut (T.cut core.theory) step }
    ensures formula { IfOk result (λ c. c.formula ≡ after core.formula step) }
    ensures pivots { IfOk result (λ c. (T.seen c.theory).pivots ≡ (T.seen core.theory).pivots) }
{
    match step {
        LogStep::Lemma { clause, why: _why } => taught(core, clause, &[]),
        LogStep::Learn { clause, hints } => taught(core, clause, hints.as_slice()),
        LogStep::Split {
            boolean: _boolean,
            var,
            k,
            point: _point,
        } => parted(core, var, k),
    }
}
