//! Whether the changes of an action rise in number, are none of them 0, and are apart.
ghost use Rattle.std.specs.Prelude.{◌≡◌, ◌≢◌, true, false, pos};
ghost use Rattle.std.specs.List.{All};
ghost use Rattle.std.specs.List.Sorted.{IsStrictlyIncreasing};
ghost use Rattle.rational.specs.Fraction.{whole};
ghost use Rattle.lin.specs.Normal.{is_zero};
ghost use Rattle.task_core.specs.Step.{is_in};
ghost use Rattle.task_core.specs.Task.{numbers, IsOrderly, IsTest};

use crate::values::no_increment_reads;
use frac128::Frac;
use task_core::GAction;

fn rise(numbers: &[u64]) -> bool
    ensures { result ≡ true → IsStrictlyIncreasing numbers.now }
{
    for i in 1..numbers.len() {
        if numbers[i - 1] >= numbers[i] {
            return false;
        }
    }
    true
}

fn rise_by_number<T>(parts: &[(u64, T)]) -> bool
    ensures { result ≡ true → IsStrictlyIncreasing (numbers parts.now) }
{
    for i in 1..parts.len() {
        if parts[i - 1].0 >= parts[i].0 {
            return false;
        }
    }
    true
}

fn changes_rise(a: &GAction) -> bool
    ensures adds { result ≡ true → IsStrictlyIncreasing a.now.adds }
    ensures dels { result ≡ true → IsStrictlyIncreasing a.now.dels }
    ensures incs { result ≡ true → IsStrictlyIncreasing (numbers a.now.incs) }
    ensures sets { result ≡ true → IsStrictlyIncreasing (numbers a.now.sets) }
{
    rise(a.adds.as_slice())
        && rise(a.dels.as_slice())
        && rise_by_number(a.incs.as_slice())
        && rise_by_number(a.sets.as_slice())
}

fn is_zero(x: &Frac) -> bool
    ensures { result ≡ is_zero x.now }
{
    x.num() == 0
}

#[tactic(auto, using(crate::proofs::Amounts::nonzero))]
fn is_nonzero(x: &Frac) -> bool
    ensures { result ≡ true → x.now ≢ whole (pos 0) }
{
    !is_zero(x)
}

fn amounts_are_nonzero(a: &GAction) -> bool
    ensures { result ≡ true → All (λ i. i.1 ≢ whole (pos 0)) a.now.incs }
{
    a.incs
        .as_slice()
        .iter()
        .all(|increment| is_nonzero(&increment.1))
}

fn lacks(p: u64, numbers: &[u64]) -> bool
    ensures { result ≡ true → is_in p numbers.now ≡ false }
{
    !numbers.contains(&p)
}

fn atoms_are_apart(a: &GAction) -> bool
    ensures { result ≡ true → All (λ p. is_in p a.now.dels ≡ false) a.now.adds }
{
    a.adds
        .as_slice()
        .iter()
        .all(|p| lacks(*p, a.dels.as_slice()))
}

/// Whether the action has no increment of the function.
fn has_no_amount(a: &GAction, f: u64) -> bool
    ensures { result ≡ true → is_in f (numbers a.now.incs) ≡ false }
{
    no_increment_reads(a, f)
}

fn functions_are_apart(a: &GAction) -> bool
    ensures { result ≡ true → All (λ s. is_in s.0 (numbers a.now.incs) ≡ false) a.now.sets }
{
    a.sets.as_slice().iter().all(|set| has_no_amount(a, set.0))
}

pub(crate) fn is_orderly(a: &GAction) -> bool
    ensures { result ≡ true → IsOrderly a.now }
{
    changes_rise(a) && (amounts_are_nonzero(a) && (atoms_are_apart(a) && functions_are_apart(a)))
}

pub(crate) fn is_test(a: &GAction) -> bool
    ensures { result ≡ true → IsTest a.now }
{
    a.adds.is_empty() && a.dels.is_empty() && a.incs.is_empty() && a.sets.is_empty()
}
