//! When a layer supports an action. Begin with `is_readable`: its literals may hold, and each function that it reads has an
//! interval. Then each comparison by itself has to be met by some point of the box.
ghost use Rattle.std.specs.Prelude.{◌≡◌, ◌++◌, slice_index_or};
ghost use Rattle.std.specs.List.{list_all, flat_map};
ghost use Rattle.task_core.specs.Task.{variables, numbers, read_by};
ghost use Rattle.relaxed.specs.Layers.{has_interval, literal_may_hold, is_readable};
ghost use Rattle.relaxed.specs.inside.Kept.{layer_of};
ghost use Rattle.relaxed.specs.inside.Ranging.{is_at_most_zero, is_below_zero, is_at_least_zero, AnswersComparison};

use crate::interval::{End, is_at_most, is_below, zero};
use crate::range::{Side, range_end};
use crate::table::{Table, interval_in};
use frac128::Wide;
use lin::{Cmp, Lin};
use task_core::GAction;

fn flag_in(flags: &[bool], p: u64, beyond: bool) -> bool
    ensures { result ≡ slice_index_or flags.now p beyond }
{
    let p = p as usize;
    if p < flags.len() { flags[p] } else { beyond }
}

fn literal_may_hold(table: &Table, atom: u64, truth: bool) -> bool
    ensures { result ≡ literal_may_hold (layer_of table.now) (atom, truth) }
{
    if truth {
        flag_in(table.may_be_true.as_slice(), atom, false)
    } else {
        flag_in(table.may_be_false.as_slice(), atom, true)
    }
}

fn literals_may_hold(table: &Table, a: &GAction) -> bool
    ensures { result ≡ list_all (literal_may_hold (layer_of table.now)) a.now.lits }
{
    a.lits
        .as_slice()
        .iter()
        .all(|literal| literal_may_hold(table, literal.0, literal.1))
}

fn has_interval(table: &Table, f: u64) -> bool
    ensures { result ≡ has_interval (layer_of table.now) f }
{
    match interval_in(table.intervals.as_slice(), f) {
        Some(_) => true,
        None => false,
    }
}

/// Whether each function in the expression has an interval.
fn has_intervals(table: &Table, l: &Lin) -> bool
    ensures { result ≡ list_all (has_interval (layer_of table.now)) (variables l.now) }
{
    for i in 0..l.terms() {
        let (variable, _) = l.term(i);
        if !has_interval(table, variable) {
            return false;
        }
    }
    true
}

fn reads_comparisons(table: &Table, a: &GAction) -> bool
    ensures { result ≡ list_all (λ c. list_all (has_interval (layer_of table.now)) (variables c.0)) a.now.cmps }
{
    a.cmps
        .as_slice()
        .iter()
        .all(|comparison| has_intervals(table, &comparison.0))
}

fn reads_sets(table: &Table, a: &GAction) -> bool
    ensures { result ≡ list_all (λ s. list_all (has_interval (layer_of table.now)) (variables s.1)) a.now.sets }
{
    a.sets
        .as_slice()
        .iter()
        .all(|set| has_intervals(table, &set.1))
}

fn reads_increments(table: &Table, a: &GAction) -> bool
    ensures { result ≡ list_all (λ i. has_interval (layer_of table.now) i.0) a.now.incs }
{
    a.incs
        .as_slice()
        .iter()
        .all(|increment| has_interval(table, increment.0))
}

fn reads_changes(table: &Table, a: &GAction) -> bool
    ensures { result ≡ list_all (has_interval (layer_of table.now)) (flat_map (λ s. variables s.1) a.now.sets ++ numbers a.now.incs) }
{
    reads_sets(table, a) && reads_increments(table, a)
}

/// Whether each function that it reads has an interval.
fn reads(table: &Table, a: &GAction) -> bool
    ensures { result ≡ list_all (has_interval (layer_of table.now)) (read_by a.now) }
{
    reads_comparisons(table, a) && reads_changes(table, a)
}

/// Whether its literals may hold, and each function that it reads has an interval.
pub(crate) fn is_readable(table: &Table, a: &GAction) -> bool
    ensures { result ≡ is_readable (layer_of table.now) a.now }
{
    literals_may_hold(table, a) && reads(table, a)
}

fn is_at_most_zero(end: End) -> bool
    ensures { result ≡ is_at_most_zero end }
{
    match end {
        End::At(e) => is_at_most(&e, &zero()),
        End::Infinite => true,
    }
}

fn is_below_zero(end: End) -> bool
    ensures { result ≡ is_below_zero end }
{
    match end {
        End::At(e) => is_below(&e, &zero()),
        End::Infinite => true,
    }
}

fn is_at_least_zero(end: End) -> bool
    ensures { result ≡ is_at_least_zero end }
{
    match end {
        End::At(e) => is_at_most(&zero(), &e),
        End::Infinite => true,
    }
}

/// Whether some point of the box meets the comparison: the least value is low enough, and for an equality the greatest is
/// high enough too.
pub(crate) fn comparison_may_hold(table: &Table, l: &Lin, cmp: Cmp) -> Result<bool, Wide>
    ensures { AnswersComparison (layer_of table.now) l.now cmp result }
{
    let low = range_end(Side::Least, table, l)?;
    match cmp {
        Cmp::Le => Ok(is_at_most_zero(low)),
        Cmp::Lt => Ok(is_below_zero(low)),
        Cmp::Eq => {
            let high = range_end(Side::Greatest, table, l)?;
            Ok(is_at_most_zero(low) && is_at_least_zero(high))
        }
    }
}
