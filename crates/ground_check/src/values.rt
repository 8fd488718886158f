//! Whether the atoms 'has a value' are as they have to be: who reads the function asks for it, nobody deletes it, and who adds
//! it gives the function a value.
ghost use Rattle.std.specs.Prelude.{◌≡◌, ◌≢◌, ℕ, ◌+◌, ◌-◌, ◌≤◌, true, false, length, nat_eq, Some};
ghost use Rattle.std.specs.List.{All, list_any};
ghost use Rattle.task_core.specs.Step.{is_in};
ghost use Rattle.task_core.specs.Task.{numbers, variables, read_by, asks, missing, value_atom_from, TellsOf};

use frac128::Frac;
use lin::Lin;
use task_core::GAction;

fn reads_not(l: &Lin, f: u64) -> bool
    ensures { result ≡ true → All (λ g. g ≢ f) (variables l.now) }
{
    for i in 0..l.terms() {
        let (variable, _) = l.term(i);
        if variable == f {
            return false;
        }
    }
    true
}

fn no_comparison_reads(a: &GAction, f: u64) -> bool
    ensures { result ≡ true → All (λ c. All (λ g. g ≢ f) (variables c.0)) a.now.cmps }
{
    a.cmps
        .as_slice()
        .iter()
        .all(|comparison| reads_not(&comparison.0, f))
}

fn no_value_reads(a: &GAction, f: u64) -> bool
    ensures { result ≡ true → All (λ s. All (λ g. g ≢ f) (variables s.1)) a.now.sets }
{
    a.sets.as_slice().iter().all(|set| reads_not(&set.1, f))
}

pub(crate) fn no_increment_reads(a: &GAction, f: u64) -> bool
    ensures { result ≡ true → All (λ i. i.0 ≢ f) a.now.incs }
{
    a.incs.as_slice().iter().all(|increment| increment.0 != f)
}

fn never_reads(a: &GAction, f: u64) -> bool
    ensures { result ≡ true → is_in f (read_by a.now) ≡ false }
{
    no_comparison_reads(a, f) && (no_value_reads(a, f) && no_increment_reads(a, f))
}

fn asks(a: &GAction, p: u64) -> bool
    ensures { result ≡ asks p a.now }
{
    a.lits
        .as_slice()
        .iter()
        .any(|literal| literal.0 == p && literal.1)
}

fn gives_value(a: &GAction, f: u64) -> bool
    ensures { result ≡ list_any (λ s. nat_eq s.0 f) a.now.sets }
{
    a.sets.as_slice().iter().any(|set| set.0 == f)
}

fn adds_only_with_value(a: &GAction, f: u64, p: u64) -> bool
    ensures { result ≡ true → is_in p a.now.adds ≡ true → is_in f (numbers a.now.sets) ≡ true }
{
    gives_value(a, f) || !a.adds.as_slice().contains(&p)
}

fn reads_only_with_value(a: &GAction, f: u64, p: u64) -> bool
    ensures { result ≡ true → is_in f (read_by a.now) ≡ true → asks p a.now ≡ true }
{
    asks(a, p) || never_reads(a, f)
}

fn keeps(a: &GAction, p: u64) -> bool
    ensures { result ≡ true → is_in p a.now.dels ≡ false }
{
    !a.dels.as_slice().contains(&p)
}

fn tells_of(a: &GAction, f: u64, p: u64) -> bool
    ensures { result ≡ true → TellsOf f p a.now }
{
    reads_only_with_value(a, f, p) && keeps(a, p) && adds_only_with_value(a, f, p)
}

/// Whether an action tells of each function without a value by its atom, of which the first is given.
pub(crate) fn tells_of_all(first: usize, funcs: &[Option<Frac>], a: &GAction) -> bool
    requires { first + missing funcs.now ≤ 9223372036854775807 }
    ensures { result ≡ true → (f p : ℕ) → value_atom_from first funcs.now f ≡ Some p → TellsOf f p a.now }
{
    let mut p = first;
    for f in 0..funcs.len() {
        if funcs[f].is_none() {
            if !tells_of(a, f as u64, p as u64) {
                return false;
            }
            p += 1;
        }
    }
    true
}

/// How many functions have no value.
pub(crate) fn missing(funcs: &[Option<Frac>]) -> usize
    ensures { result ≡ missing funcs.now }
{
    let mut count = 0;
    for func in funcs {
        if func.is_none() {
            count += 1;
        }
    }
    count
}

pub(crate) fn are_false(atoms: &[bool]) -> bool
    ensures { result ≡ true → All (λ t. t ≡ false) atoms.now }
{
    atoms.iter().all(|truth| !*truth)
}
