//! An index of clauses. The empty clause has no literal, so a flag tells of it.
ghost use Rattle.std.specs.Prelude.{◌≡◌, ℕ, ◌+◌, [], false, List, All, IfOk, OnOk, MatchOption};
ghost use Rattle.std.specs.List.{Contains};
ghost use Rattle.formula.specs.declared.atom.Lit.{Lit};
ghost use Rattle.clause_index.specs.Places.{listed, HasRoom, Keeps, IsListed, with_empty};

use crate::lists::{add_list, empty_lists, list_at, put_at};
use formula::Lit;
use std::alloc::{AllocError, Global};
use std::marker::Model;

/// The numbers of clauses by literal. Contracts see the lists of the positive and of the negative literals, and the flag.
#[derive(Drop)]
pub struct ClauseIndex {
    positive: Vec<Vec<usize>>,
    negative: Vec<Vec<usize>>,
    empty: bool,
    alloc: Global,
}

impl Model for ClauseIndex {
    ghost use Rattle.clause_index.specs.Places.{Places, are_lists};

    ghost Value = { Places };

    ghost view = { λ i. record { positive = are_lists i.positive.items; negative = are_lists i.negative.items; empty = i.empty } };
}

impl ClauseIndex {
    /// An index without clauses, for so many Booleans.
    pub fn new(alloc: Global, booleans: usize) -> Result<ClauseIndex, AllocError>
        ensures room { IfOk result (λ i. HasRoom i booleans) }
        ensures none { IfOk result (λ i. i.empty ≡ false) }
    {
        Ok(ClauseIndex {
            positive: empty_lists(alloc, booleans)?,
            negative: empty_lists(alloc, booleans)?,
            empty: false,
            alloc,
        })
    }

    /// Whether the empty clause is there.
    pub fn has_empty(&self) -> bool
        ensures { result ≡ self.now.empty }
    {
        let _ = &self.positive;
        self.empty
    }

    /// The numbers of the clauses that stand under the literal.
    pub fn listed(&self, lit: Lit) -> &[usize]
        ensures { result.now ≡ listed self.now lit }
    {
        if lit.pos {
            list_at(&self.positive, lit.boolean as usize)
        } else {
            list_at(&self.negative, lit.boolean as usize)
        }
    }

    /// Room for the literals of one more Boolean. After want of memory there may be some of it.
    pub fn add_boolean(&mut self) -> Result<(), AllocError>
        ensures keeps { Keeps self.old self.new }
        ensures same { self.new.empty ≡ self.old.empty }
        ensures room { OnOk result ((n : ℕ) → HasRoom self.old n → HasRoom self.new (n + 1)) }
        ensures kept { (n : ℕ) → HasRoom self.old n → HasRoom self.new n }
    {
        add_list(self.alloc, &mut self.positive)?;
        add_list(self.alloc, &mut self.negative)?;
        Ok(())
    }

    /// Puts a clause under one of its literals, by its number; the empty one has none.
    pub fn add(&mut self, number: usize, clause: &[Lit]) -> Result<(), AllocError>
        requires { All (λ l. HasRoom self.old (l.boolean + 1)) clause.now }
        ensures keeps { Keeps self.old self.new }
        ensures kept { (n : ℕ) → HasRoom self.old n → HasRoom self.new n }
        ensures added { OnOk result (IsListed self.new number clause.now) }
        ensures empty { self.new.empty ≡ self.old.empty }
    {
        match self.rarest(clause) {
            Some(lit) => self.put(lit, number),
            None => Ok(()),
        }
    }

    /// The empty clause is there.
    pub fn add_empty(&mut self)
        ensures { self.new ≡ with_empty self.old }
    {
        self.empty = true;
    }

    // The literal under which the fewest clauses stand, so that lists stay short.
    fn rarest(&self, clause: &[Lit]) -> Option<Lit>
        ensures { MatchOption result (clause.now ≡ []) (λ l. Contains clause.now l) }
    {
        let mut rarest = *clause.first()?;
        for lit in clause {
            if self.listed(*lit).len() < self.listed(rarest).len() {
                rarest = *lit;
            }
        }
        Some(rarest)
    }

    // Puts a clause under one of its literals.
    fn put(&mut self, lit: Lit, number: usize) -> Result<(), AllocError>
        requires { HasRoom self.old (lit.boolean + 1) }
        ensures keeps { Keeps self.old self.new }
        ensures kept { (n : ℕ) → HasRoom self.old n → HasRoom self.new n }
        ensures there { OnOk result (Contains (listed self.new lit) number) }
        ensures empty { self.new.empty ≡ self.old.empty }
    {
        let place = lit.boolean as usize;
        if lit.pos {
            put_at(&mut self.positive, place, number)
        } else {
            put_at(&mut self.negative, place, number)
        }
    }
}
