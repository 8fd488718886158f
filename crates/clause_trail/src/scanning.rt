//! What clauses say under a trail.
ghost use Rattle.std.specs.Prelude.{◌≡◌, ◌≢◌, ◌<◌, true, false, length, slice_get, Some};
ghost use Rattle.formula.specs.declared.atom.Lit.{Lit};
ghost use Rattle.clause_trail.specs.Scanning.{ScanHolds, NextHolds, IsFirstOpen};
ghost use Rattle.clause_trail.specs.inside.Values.{ValueHolds};

use crate::trail::Trail;
use formula::{Clause, Lit};

#[derive(Drop)]
pub enum Scanned {
    Satisfied,
    Falsified,
    Unit(Lit),
    Open,
}

#[derive(Drop)]
pub enum Next {
    Conflict(usize),
    Unit(usize, Lit),
    Done,
}

/// Whether the literal is true, where its Boolean is assigned.
fn value(trail: &Trail, lit: Lit) -> Option<bool>
    ensures { ValueHolds trail.now.entries lit result }
{
    let entries = trail.entries();
    let Some(p) = trail.place(lit.boolean) else {
        return None;
    };
    Some(entries[p].lit.pos == lit.pos)
}

/// What a clause says.
pub fn scan(trail: &Trail, clause: &[Lit]) -> Scanned
    ensures { ScanHolds trail.now.entries clause.now result }
{
    let mut unit: Option<Lit> = None;
    for lit in clause {
        match value(trail, *lit) {
            Some(true) => return Scanned::Satisfied,
            Some(false) => {}
            None => {
                if let Some(first) = unit {
                    if first != *lit {
                        return Scanned::Open;
                    }
                }
                unit = Some(*lit);
            }
        }
    }
    match unit {
        Some(lit) => Scanned::Unit(lit),
        None => Scanned::Falsified,
    }
}

/// The first clause that is false, or unit.
pub fn first_open(trail: &Trail, clauses: &[Clause]) -> Next
    ensures next { NextHolds trail.now.entries clauses.now result }
    ensures first { IsFirstOpen trail.now.entries clauses.now result }
{
    for (k, clause) in clauses.iter().enumerate() {
        match scan(trail, clause.lits()) {
            Scanned::Falsified => return Next::Conflict(k),
            Scanned::Unit(lit) => return Next::Unit(k, lit),
            _ => {}
        }
    }
    Next::Done
}

/// The literals of the clause of this number.
pub fn lits_at(clauses: &[Clause], number: usize) -> &[Lit]
    requires { number < length clauses.now }
    ensures { slice_get clauses.now number ≡ Some result.now }
{
    clauses[number].lits()
}

/// Whether the literals are two.
pub fn differs(a: Lit, b: Lit) -> bool
    ensures apart { result ≡ true → a ≢ b }
    ensures same { result ≡ false → a ≡ b }
{
    a != b
}
