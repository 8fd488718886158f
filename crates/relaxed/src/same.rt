//! Whether two layers are the same.
ghost use Rattle.std.specs.Prelude.{◌≡◌, true};

use crate::interval::{End, Interval};
use crate::table::Table;
use std::cmp::Ordering;

fn is_same_end(a: End, b: End) -> bool
    ensures { result ≡ true → a ≡ b }
{
    match a {
        End::Infinite => match b {
            End::Infinite => true,
            End::At(_) => false,
        },
        End::At(x) => match b {
            End::Infinite => false,
            End::At(y) => match x.cmp(&y) {
                Ordering::Equal => true,
                Ordering::Less => false,
                Ordering::Greater => false,
            },
        },
    }
}

fn is_same_interval(a: Option<Interval>, b: Option<Interval>) -> bool
    ensures { result ≡ true → a ≡ b }
{
    match a {
        None => match b {
            None => true,
            Some(_) => false,
        },
        Some(i) => match b {
            None => false,
            Some(j) => is_same_end(i.low, j.low) && is_same_end(i.high, j.high),
        },
    }
}

fn are_same_flags(a: &[bool], b: &[bool]) -> bool
    ensures { result ≡ true → a.now ≡ b.now }
{
    if a.len() != b.len() {
        return false;
    }
    for i in 0..a.len() {
        if a[i] != b[i] {
            return false;
        }
    }
    true
}

fn are_same_intervals(a: &[Option<Interval>], b: &[Option<Interval>]) -> bool
    ensures { result ≡ true → a.now ≡ b.now }
{
    if a.len() != b.len() {
        return false;
    }
    for i in 0..a.len() {
        if !is_same_interval(a[i], b[i]) {
            return false;
        }
    }
    true
}

/// Whether the two are the same.
pub(crate) fn is_same(a: &Table, b: &Table) -> bool
    ensures { result ≡ true → a.now ≡ b.now }
{
    are_same_flags(a.may_be_true.as_slice(), b.may_be_true.as_slice())
        && are_same_flags(a.may_be_false.as_slice(), b.may_be_false.as_slice())
        && are_same_intervals(a.intervals.as_slice(), b.intervals.as_slice())
}
