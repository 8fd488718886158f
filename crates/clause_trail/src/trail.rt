//! The assigned literals in order.
ghost use Rattle.std.specs.Prelude.{◌≡◌, ◌<◌, ◌≤◌, ◌+◌, ◌++◌, ◌∷◌, [], ℕ, length, IfOk, IfSome, OnErr, OnOk, MatchOption, slice_get, slice_set, Some};
ghost use Rattle.std.specs.Option.{option_flatten};

use formula::Lit;
use std::alloc::{AllocError, Global};
use std::marker::Model;

/// A literal that is true, and the number of the clause that forced it. None for a decision.
#[derive(Clone, Copy)]
pub struct Entry {
    pub lit: Lit,
    pub reason: Option<usize>,
}

#[derive(Drop)]
pub struct Trail {
    entries: Vec<Entry>,
    place: Vec<Option<usize>>,
}

impl Model for Trail {
    ghost use Rattle.std.specs.Prelude.{List, length, ℕ};
    ghost use Rattle.clause_trail.specs.declared.trail.Entry.{Entry};
    ghost use Rattle.std.specs.List.{sum_by};
    ghost use Rattle.clause_trail.specs.Standing.{Trailed, IsTabled, free_of};

    ghost Value = { Trailed };

    ghost view = { λ t. record { entries = t.entries.items; booleans = length t.place.items; free = sum_by free_of t.place.items } };

    ghost invariant = { λ t. IsTabled t.place.items t.entries.items };
}

#[tactic(auto, using(std::proofs::lemmas::Option::gets))]
fn place_in(place: &[Option<usize>], boolean: u64) -> Option<usize>
    ensures { result ≡ option_flatten (slice_get place.now boolean) }
{
    let index = boolean as usize;
    if index < place.len() {
        return place[index];
    }
    None
}

impl Trail {
    ghost use Rattle.formula.specs.declared.atom.Lit.{Lit};
    ghost use Rattle.clause_trail.specs.Standing.{Stands, IsApart, IsFree};

    pub fn new(alloc: Global, booleans: usize) -> Result<Trail, AllocError>
        ensures { IfOk result (λ t. (t.entries ≡ []) × (t.booleans ≡ booleans)) }
    {
        Ok(Trail {
            entries: Vec::new(alloc),
            place: vec![in alloc; None; booleans]?,
        })
    }

    pub fn entries(&self) -> &[Entry]
        ensures value { result.now ≡ self.now.entries }
        ensures apart { IsApart self.now.entries }
    {
        let _ = &self.place;
        self.entries.as_slice()
    }

    pub fn booleans(&self) -> usize
        ensures value { result ≡ self.now.booleans }
        ensures above { (p : ℕ) (l : Lit) → Stands self.now.entries p l → l.boolean < result }
        ensures apart { IsApart self.now.entries }
        ensures counted { self.now.free + length self.now.entries ≡ result }
    {
        let _ = &self.entries;
        self.place.len()
    }

    /// The place of the literal of a Boolean.
    pub fn place(&self, boolean: u64) -> Option<usize>
        ensures found { MatchOption result (IsFree self.now.entries boolean) (λ p. (l : Lit) × Stands self.now.entries p l × (l.boolean ≡ boolean)) }
        ensures within { IfSome result (λ p. p < length self.now.entries) }
    {
        place_in(self.place.as_slice(), boolean)
    }

    pub fn push(&mut self, entry: Entry) -> Result<(), AllocError>
        requires booleans { entry.lit.boolean < self.old.booleans }
        requires open { IsFree self.old.entries entry.lit.boolean }
        ensures ok { OnOk result (self.new.entries ≡ self.old.entries ++ entry ∷ []) }
        ensures err { OnErr result (self.new.entries ≡ self.old.entries) }
        ensures booleans { self.new.booleans ≡ self.old.booleans }
        ensures free { OnOk result (self.new.free + 1 ≡ self.old.free) }
        ensures room { OnOk result (length self.new.entries ≤ self.new.booleans) }
    {
        let place = self.entries.len();
        self.entries.push(entry)?;
        self.place[entry.lit.boolean as usize] = Some(place);
        Ok(())
    }

    /// Makes room for one more Boolean.
    pub fn add_boolean(&mut self) -> Result<(), AllocError>
        ensures entries { self.new.entries ≡ self.old.entries }
        ensures booleans { OnOk result (self.new.booleans ≡ self.old.booleans + 1) }
        ensures free { OnOk result (self.new.free ≡ self.old.free + 1) }
        ensures err { OnErr result (self.new ≡ self.old) }
    {
        let _ = &self.entries;
        self.place.push(None)?;
        Ok(())
    }

    /// The literal of this place is forced by the clause of this number.
    pub fn set_reason(&mut self, place: usize, reason: usize)
        requires { place < length self.old.entries }
        ensures entries { (l : Lit) → Stands self.old.entries place l → self.new.entries ≡ slice_set self.old.entries place (record { lit = l; reason = Some reason }) }
        ensures booleans { self.new.booleans ≡ self.old.booleans }
    {
        let _ = &self.place;
        let lit = self.entries[place].lit;
        self.entries[place] = Entry {
            lit,
            reason: Some(reason),
        };
    }

    pub fn pop(&mut self) -> Option<Entry>
        ensures entries { MatchOption result ((self.old.entries ≡ []) × (self.new.entries ≡ [])) (λ e. self.old.entries ≡ self.new.entries ++ e ∷ []) }
        ensures booleans { self.new.booleans ≡ self.old.booleans }
    {
        let entry = self.entries.pop()?;
        self.place[entry.lit.boolean as usize] = None;
        Some(entry)
    }
}
