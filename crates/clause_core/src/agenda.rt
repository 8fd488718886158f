//! What the search tries first: for each Boolean an activity, which its conflicts raise, and the truth that it had last. It
//! bears on how long a search takes and on nothing that is promised of it.

use clause_trail::Entry;
use formula::{Atom, Clause, Formula, Lit};
use std::alloc::{AllocError, Global};

/// Where an activity reaches this, all are halved.
const MOST: u64 = 4_611_686_018_427_387_904;

/// How many conflicts the shortest run between two restarts has.
const RUN: u64 = 64;

#[derive(Drop)]
pub struct Agenda {
    activities: Vec<u64>,
    phases: Vec<bool>,
    /// By how much an activity is raised. It grows by a twentieth a conflict.
    raise: u64,
    /// The conflicts of this run.
    conflicts: u64,
    /// The number of this run's climb in Luby's sequence 1 1 2 1 1 2 4 .., and its length there.
    climb: u64,
    length: u64,
}

impl Agenda {
    pub fn new(alloc: Global) -> Agenda {
        Agenda {
            activities: Vec::new(alloc),
            phases: Vec::new(alloc),
            raise: 1_000,
            conflicts: 0,
            climb: 1,
            length: 1,
        }
    }

    /// One more Boolean, which is tried with this truth first.
    pub fn add(&mut self, phase: bool) -> Result<(), AllocError> {
        self.activities.push(0)?;
        self.phases.push(phase)?;
        Ok(())
    }

    /// The truth to try.
    pub fn phase(&self, boolean: u64) -> bool {
        let b = boolean as usize;
        if b < self.phases.len() {
            return self.phases[b];
        }
        false
    }

    pub fn activity(&self, boolean: u64) -> u64 {
        let b = boolean as usize;
        if b < self.activities.len() {
            return self.activities[b];
        }
        0
    }

    /// Keeps the truths of a trail.
    pub fn keep(&mut self, entries: &[Entry]) {
        for entry in entries {
            let b = entry.lit.boolean as usize;
            if b < self.phases.len() {
                self.phases[b] = entry.lit.pos;
            }
        }
    }

    /// Raises the activity of a clause's Booleans.
    pub fn raise(&mut self, clause: &[Lit]) {
        for lit in clause {
            let b = lit.boolean as usize;
            if b < self.activities.len() {
                self.activities[b] = self.activities[b].saturating_add(self.raise);
                if self.activities[b] >= MOST {
                    self.halve();
                }
            }
        }
    }

    /// Raises the activity of the Booleans of the clauses with these numbers.
    pub fn raise_all(&mut self, clauses: &[Clause], numbers: &[u64]) {
        for number in numbers {
            let n = *number as usize;
            if n < clauses.len() {
                self.raise(clauses[n].lits());
            }
        }
    }

    fn halve(&mut self) {
        for b in 0..self.activities.len() {
            self.activities[b] /= 2;
        }
        self.raise /= 2;
    }

    /// Counts a conflict. Whether the run is over, and a restart is due.
    pub fn is_due(&mut self) -> bool {
        self.raise = self.raise.saturating_add(self.raise / 20);
        self.conflicts = self.conflicts.saturating_add(1);
        if self.conflicts < self.length.saturating_mul(RUN) {
            return false;
        }
        self.conflicts = 0;
        if self.climb & self.climb.wrapping_neg() == self.length {
            self.climb = self.climb.wrapping_add(1);
            self.length = 1;
        } else {
            self.length = self.length.wrapping_mul(2);
        }
        true
    }
}

/// The Booleans of a formula, each with the truth that is tried first.
pub fn agenda_of(alloc: Global, formula: &Formula) -> Result<Agenda, AllocError> {
    let mut agenda = Agenda::new(alloc);
    for b in 0..formula.booleans() {
        let phase = match formula.atom(b) {
            Some(atom) => is_count_at_most_zero(formula, atom),
            None => false,
        };
        agenda.add(phase)?;
    }
    Ok(agenda)
}

/// Whether the atom is `c <= 0` for a count c. A count is tried at 0, and everything else with false.
fn is_count_at_most_zero(formula: &Formula, atom: &Atom) -> bool {
    if atom.strict || atom.lin.terms() != 1 {
        return false;
    }
    let (v, _coefficient) = atom.lin.term(0);
    if v < formula.vars() && formula.is_count(v) {
        return atom.bound.num() == 0;
    }
    false
}
