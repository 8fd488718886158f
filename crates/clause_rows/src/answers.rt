//! What the core answers of a row. The row's texts are the number of Booleans, the steps that the log may have, the step at
//! which the sink fails, counted from 0, and the clauses; of a row of a theory that refuses, in place of the sink's step twice the
//! number of the check that does, and one more where an operation passes there. A row of bounds has the number of counts and
//! the Booleans in place of their number.
use crate::bounds::read_booleans;
use crate::checker::Checker;
use crate::reading::{read_clauses, truths};
use crate::readings::are_whole;
use crate::refusing::Refusing;
use crate::starting::start_on;
use bound_theory::Bounds;
use clause_core::{Core, CoreFail, Outcome};
use formula::Formula;
use std::alloc::{AllocError, Global};
use std::str;
use theory_law::{NoTheory, Theory};

/// More steps than any row has.
const MANY: u64 = 1_000_000;

/// The answer of a row: `sat` where a point is found, `unsat` where the log has the empty clause, `spent` where its steps are
/// spent, and `stopped` where the sink failed. It says `wrong` behind that where the checker finds a fault. The call `count`
/// also says how many steps there were, and the call `start` tells where the theory starts on a row of letters. The calls `bound`
/// and `logged` are over the theory of bounds, and `logged` also tells whether the log has a lemma and a split.
pub fn answer(alloc: Global, call: &str, texts: &[Vec<u8>]) -> Result<String, AllocError> {
    if call == "start" {
        return start_row(alloc, texts);
    }
    if call == "bound" || call == "logged" {
        return bound_row(alloc, call, texts);
    }
    let Some(row) = read_row(texts) else {
        return String::from_str(alloc, "not a row");
    };
    let Some(formula) = read_clauses(alloc, truths(alloc, row.booleans)?, row.clauses)? else {
        return String::from_str(alloc, "no formula");
    };
    let found = if call == "refuse" {
        solve::<Refusing>(alloc, formula, row.steps, MANY, row.fails_at)?
    } else {
        solve::<NoTheory>(alloc, formula, row.steps, row.fails_at, 1)?
    };
    let judged = if found.is_wrong { " wrong" } else { "" };
    if call == "count" {
        return format!(in alloc; "{}{judged} {}", found.answer, found.steps);
    }
    format!(in alloc; "{}{judged}", found.answer)
}

fn start_row(alloc: Global, texts: &[Vec<u8>]) -> Result<String, AllocError> {
    match texts {
        [letters] => start_on(alloc, letters.as_slice()),
        _ => String::from_str(alloc, "not a row"),
    }
}

/// The answer of a row of bounds.
fn bound_row(alloc: Global, call: &str, texts: &[Vec<u8>]) -> Result<String, AllocError> {
    let Some(row) = read_bound_row(texts) else {
        return String::from_str(alloc, "not a row");
    };
    let Some(formula) = bound_formula(alloc, &row)? else {
        return String::from_str(alloc, "no formula");
    };
    let found = solve::<Bounds>(alloc, formula, row.steps, row.fails_at, 1)?;
    let judged = if found.is_wrong { " wrong" } else { "" };
    if call == "bound" {
        return format!(in alloc; "{}{judged}", found.answer);
    }
    let lemmas = if found.has_lemma { " lemma" } else { "" };
    let splits = if found.has_split { " split" } else { "" };
    format!(in alloc; "{}{lemmas}{splits}{judged}", found.answer)
}

#[derive(Drop)]
struct BoundRow<'a> {
    counts: u64,
    booleans: &'a str,
    steps: u64,
    fails_at: u64,
    clauses: &'a str,
}

fn read_bound_row(texts: &[Vec<u8>]) -> Option<BoundRow<'_>> {
    let [counts, booleans, steps, fails_at, clauses] = texts else {
        return None;
    };
    Some(BoundRow {
        counts: read_number(counts.as_slice())?,
        booleans: str::from_utf8(booleans.as_slice()).ok()?,
        steps: read_number(steps.as_slice())?,
        fails_at: read_number(fails_at.as_slice())?,
        clauses: str::from_utf8(clauses.as_slice()).ok()?,
    })
}

fn bound_formula(alloc: Global, row: &BoundRow<'_>) -> Result<Option<Formula>, AllocError> {
    match read_booleans(alloc, row.counts, row.booleans)? {
        Some(formula) => read_clauses(alloc, formula, row.clauses),
        None => Ok(None),
    }
}

#[derive(Drop)]
struct Row<'a> {
    booleans: u64,
    steps: u64,
    fails_at: u64,
    clauses: &'a str,
}

fn read_row(texts: &[Vec<u8>]) -> Option<Row<'_>> {
    let [booleans, steps, fails_at, clauses] = texts else {
        return None;
    };
    Some(Row {
        booleans: read_number(booleans.as_slice())?,
        steps: read_number(steps.as_slice())?,
        fails_at: read_number(fails_at.as_slice())?,
        clauses: str::from_utf8(clauses.as_slice()).ok()?,
    })
}

fn read_number(text: &[u8]) -> Option<u64> {
    str::from_utf8(text).ok()?.parse::<u64>().ok()
}

#[derive(Drop)]
struct Found {
    answer: &'static str,
    is_wrong: bool,
    steps: u64,
    has_lemma: bool,
    has_split: bool,
}

/// Solves the formula over a theory, and judges the log, the empty clause and the point.
fn solve<T: Theory>(
    alloc: Global,
    formula: Formula,
    steps: u64,
    fails_at: u64,
    pivots: u64,
) -> Result<Found, AllocError> {
    let mut checker = Checker::new(alloc, &formula, fails_at)?;
    let Ok(theory) = T::start(alloc, &formula, pivots) else {
        return Ok(Found {
            answer: "not started",
            is_wrong: false,
            steps: 0,
            has_lemma: false,
            has_split: false,
        });
    };
    let core = Core::new(alloc, formula, theory)?;
    let (answer, is_right) = match core.solve(steps, &mut checker) {
        Ok(Outcome::Found(point)) => (
            "sat",
            checker.is_met(&point) && are_whole(point.values.as_slice()),
        ),
        Ok(Outcome::Empty) => ("unsat", checker.is_empty()),
        Err(CoreFail::Steps) => ("spent", checker.steps == steps),
        Err(CoreFail::Sink) => ("stopped", checker.steps == fails_at),
        Err(CoreFail::Wide(_trace)) => ("wide", true),
        Err(CoreFail::Pivots(_trace)) => ("pivots", true),
        Err(CoreFail::Memory) => ("memory", true),
    };
    Ok(Found {
        answer,
        is_wrong: !is_right || checker.unsound > 0 || checker.needless > 0,
        steps: checker.steps,
        has_lemma: checker.lemmas > 0,
        has_split: checker.splits > 0,
    })
}
