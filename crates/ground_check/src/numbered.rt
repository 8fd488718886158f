//! Whether each number of an action is that of an atom or of a function.
ghost use Rattle.std.specs.Prelude.{◌≡◌, ◌<◌, true};
ghost use Rattle.std.specs.List.{All};
ghost use Rattle.task_core.specs.Task.{variables, read_by};

use lin::Lin;
use task_core::GAction;

/// Whether each number is below the count.
pub(crate) fn are_below(count: u64, numbers: &[u64]) -> bool
    ensures { result ≡ true → All (λ n. n < count) numbers.now }
{
    numbers.iter().all(|n| *n < count)
}

pub(crate) fn literals_are_below(atoms: u64, a: &GAction) -> bool
    ensures { result ≡ true → All (λ l. l.0 < atoms) a.now.lits }
{
    a.lits.as_slice().iter().all(|literal| literal.0 < atoms)
}

fn is_below(funcs: u64, l: &Lin) -> bool
    ensures { result ≡ true → All (λ f. f < funcs) (variables l.now) }
{
    l.is_below(funcs)
}

fn comparisons_are_below(funcs: u64, a: &GAction) -> bool
    ensures { result ≡ true → All (λ c. All (λ f. f < funcs) (variables c.0)) a.now.cmps }
{
    a.cmps
        .as_slice()
        .iter()
        .all(|comparison| is_below(funcs, &comparison.0))
}

fn values_are_below(funcs: u64, a: &GAction) -> bool
    ensures { result ≡ true → All (λ s. All (λ f. f < funcs) (variables s.1)) a.now.sets }
{
    a.sets.as_slice().iter().all(|set| is_below(funcs, &set.1))
}

fn increments_are_below(funcs: u64, a: &GAction) -> bool
    ensures { result ≡ true → All (λ i. i.0 < funcs) a.now.incs }
{
    a.incs
        .as_slice()
        .iter()
        .all(|increment| increment.0 < funcs)
}

/// Whether it reads functions below the count alone.
pub(crate) fn reads_below(funcs: u64, a: &GAction) -> bool
    ensures { result ≡ true → All (λ f. f < funcs) (read_by a.now) }
{
    comparisons_are_below(funcs, a)
        && (values_are_below(funcs, a) && increments_are_below(funcs, a))
}

pub(crate) fn targets_are_below(funcs: u64, a: &GAction) -> bool
    ensures { result ≡ true → All (λ s. s.0 < funcs) a.now.sets }
{
    a.sets.as_slice().iter().all(|set| set.0 < funcs)
}
