//! A formula: numeric variables, some of them counts, Booleans, some of them atoms, and clauses. Begin with `Formula`.
ghost use Rattle.std.specs.Prelude.{◌≡◌, ◌<◌, ◌+◌, [], ◌∷◌, ◌++◌, length, slice_get, Some, None, true, unwrap_or, IsSome, IfOk, OnOk, OnErr};
ghost use Rattle.std.specs.HashMap.{spare, Updates};
ghost use Rattle.std.specs.Option.{option_copied};
ghost use Rattle.formula.specs.Atoms.{IsAtom};
ghost use Rattle.formula.specs.Contents.{IsFormula, is_clause, with_variable, with_boolean, with_clause};
ghost use Rattle.formula.specs.Equal.{boolean_of, with_atom};
ghost use Rattle.formula.specs.inside.Keys.{key_of, same_key};

use crate::atom::Atom;
use crate::clause::Clause;
use crate::key::key_of;
use sqlite_items::Items;
use std::alloc::{AllocError, Global};
use std::collections::HashMap;
use std::marker::Model;

/// Numeric variables, Booleans and clauses, each numbered from 0 in the order in which they were added.
#[derive(Debug, Drop)]
pub struct Formula {
    counts: Items<bool>,
    atoms: Items<Option<Atom>>,
    clauses: Items<Clause>,
    // The first Boolean of each atom, by its key.
    index: HashMap<Vec<u128>, u64>,
    alloc: Global,
}

impl Model for Formula {
    ghost use Rattle.formula.specs.Atoms.{IsAtom};
    ghost use Rattle.formula.specs.Contents.{Contents, contents_code, IsFormula};
    ghost use Rattle.formula.specs.inside.Keys.{IsIndex};

    ghost Value = { Contents };

    ghost coded = { contents_code };

    ghost view = { λ f. record { counts = f.counts; atoms = f.atoms; clauses = f.clauses } };

    ghost invariant = { λ f. IsFormula (record { counts = f.counts; atoms = f.atoms; clauses = f.clauses }) × IsIndex f.index f.atoms };
}

impl Formula {
    /// No variable, no Boolean, no clause.
    pub fn new(alloc: Global) -> Formula
        ensures { result ≡ record { counts = []; atoms = []; clauses = [] } }
    {
        Formula {
            counts: Items::new(alloc),
            atoms: Items::new(alloc),
            clauses: Items::new(alloc),
            index: HashMap::new(alloc),
            alloc,
        }
    }

    /// How many numeric variables.
    pub fn vars(&self) -> u64
        ensures { result ≡ length self.now.counts }
    {
        self.counts.len() as u64
    }

    /// Whether the numeric variable is a count.
    pub fn is_count(&self, v: u64) -> bool
        requires { v < length self.now.counts }
        ensures { slice_get self.now.counts v ≡ Some result }
    {
        self.counts.as_slice()[v as usize]
    }

    /// How many Booleans.
    pub fn booleans(&self) -> u64
        ensures { result ≡ length self.now.atoms }
    {
        self.atoms.len() as u64
    }

    /// The Boolean's atom, or `None` where it is a truth variable.
    pub fn atom(&self, b: u64) -> Option<&Atom>
        requires { b < length self.now.atoms }
        ensures value { slice_get self.now.atoms b ≡ Some (option_copied result) }
        ensures formula { IsFormula self.now }
    {
        self.atoms.as_slice()[b as usize].as_ref()
    }

    /// The clauses in order.
    pub fn clauses(&self) -> &[Clause]
        ensures value { result.now ≡ self.now.clauses }
        ensures formula { IsFormula self.now }
    {
        self.clauses.as_slice()
    }

    /// One more numeric variable, and its number.
    pub fn add_var(&mut self, count: bool) -> Result<u64, AllocError>
        ensures number { IfOk result (λ v. v ≡ length self.old.counts) }
        ensures added { OnOk result (self.new ≡ with_variable count self.old) }
        ensures same { OnErr result (self.new ≡ self.old) }
    {
        let number = self.vars();
        self.counts.push(count)?;
        Ok(number)
    }

    /// One more truth variable, and its number.
    pub fn add_truth(&mut self) -> Result<u64, AllocError>
        ensures number { IfOk result (λ b. b ≡ length self.old.atoms) }
        ensures added { OnOk result (self.new ≡ with_boolean None self.old) }
        ensures same { OnErr result (self.new ≡ self.old) }
    {
        let number = self.booleans();
        self.atoms.push(None)?;
        Ok(number)
    }

    /// One more clause, whose Booleans rise and are those of the formula.
    pub fn add_clause(&mut self, c: Clause) -> Result<(), AllocError>
        requires { is_clause (length self.old.atoms) c ≡ true }
        ensures added { OnOk result (self.new ≡ with_clause c self.old) }
        ensures same { OnErr result (self.new ≡ self.old) }
    {
        self.clauses.push(c)
    }

    /// The first Boolean of an equal atom, or else one more Boolean of this atom.
    pub fn add_atom(&mut self, a: Atom) -> Result<u64, AllocError>
        requires { IsAtom self.old.counts a }
        ensures number { IfOk result (λ b. b ≡ unwrap_or (boolean_of a self.old.atoms) (length self.old.atoms)) }
        ensures added { OnOk result (self.new ≡ with_atom a self.old) }
        ensures same { OnErr result (self.new ≡ self.old) }
    {
        let key = key_of(self.alloc, &a)?;
        match self.index.get(&key).copied() {
            Some(number) => Ok(number),
            None => self.push_first(key, a),
        }
    }

    /// One more Boolean, of this atom, and its number.
    pub(crate) fn push_atom(&mut self, a: Atom) -> Result<u64, AllocError>
        requires { IsAtom self.old.counts a }
        ensures number { IfOk result (λ b. b ≡ length self.old.atoms) }
        ensures added { OnOk result (self.new ≡ with_boolean (Some a) self.old) }
        ensures same { OnErr result (self.new ≡ self.old) }
    {
        let key = key_of(self.alloc, &a)?;
        match self.index.get(&key).copied() {
            Some(_) => self.push_again(a),
            None => self.push_first(key, a),
        }
    }

    // One more Boolean of an atom that has one.
    fn push_again(&mut self, a: Atom) -> Result<u64, AllocError>
        requires atom { IsAtom self.old.counts a }
        requires known { IsSome (boolean_of a self.old.atoms) }
        ensures number { IfOk result (λ b. b ≡ length self.old.atoms) }
        ensures added { OnOk result (self.new ≡ with_boolean (Some a) self.old) }
        ensures same { OnErr result (self.new ≡ self.old) }
    {
        let number = self.booleans();
        self.atoms.push(Some(a))?;
        Ok(number)
    }

    // The first Boolean of an atom, whose key is given.
    fn push_first(&mut self, key: Vec<u128>, a: Atom) -> Result<u64, AllocError>
        requires key { key.items ≡ key_of a }
        requires atom { IsAtom self.old.counts a }
        requires first { boolean_of a self.old.atoms ≡ None }
        ensures number { IfOk result (λ b. b ≡ length self.old.atoms) }
        ensures added { OnOk result (self.new ≡ with_boolean (Some a) self.old) }
        ensures same { OnErr result (self.new ≡ self.old) }
    {
        let number = self.booleans();
        self.index.reserve(1)?;
        self.atoms.push(Some(a))?;
        put(&mut self.index, key, number);
        Ok(number)
    }

    pub(crate) fn counts(&self) -> &[bool]
        ensures value { result.now ≡ self.now.counts }
        ensures formula { IsFormula self.now }
    {
        self.counts.as_slice()
    }

    pub(crate) fn atoms(&self) -> &[Option<Atom>]
        ensures { result.now ≡ self.now.atoms }
    {
        self.atoms.as_slice()
    }

    pub(crate) fn alloc(&self) -> Global {
        self.alloc
    }
}

// Puts a number at a key, for which there is room.
fn put(index: &mut HashMap<Vec<u128>, u64>, key: Vec<u128>, number: u64)
    requires { 0 < spare index.old }
    ensures { Updates same_key index.old index.new key (Some number) }
{
    if index.insert(key, number).is_err() {
        unreachable!();
    }
}
