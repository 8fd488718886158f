//! `GroundMap`: a hash table for each head. Arguments are a slice, or, where that would take memory, any `Listed`.
ghost use Rattle.std.specs.Prelude.{◌≡◌, ◌<◌, length, IsSome, IfOk, OnOk, OnErr};
ghost use Rattle.ground_map.specs.GroundMap.{same_args, value_at, IsEmpty, IsSame, IsPut, Keeps};
ghost use Rattle.ground_map.specs.inside.Entries.{entries_at, Reaches};

use std::alloc::{AllocError, Global};
use std::collections::HashMap;
use std::marker::Model;

/// Values by head and arguments. Contracts see, for each head, a list of arguments with their values.
#[derive(Debug, Drop)]
pub struct GroundMap<V> {
    tables: Vec<HashMap<Vec<u32>, V>>,
    alloc: Global,
}

impl<V> Model for GroundMap<V> {
    ghost use Rattle.std.specs.Prelude.{List, ℕ, map};
    ghost use Rattle.std.specs.Coded.{coded_list, coded×, coded_ℕ};
    ghost use Rattle.ground_map.specs.inside.Entries.{entries_of};

    ghost Value = { List (List (List ℕ × V)) };

    ghost coded = { coded_list (coded_list (coded× (coded_list coded_ℕ) V.code)) };

    ghost view = { λ m. map entries_of m.tables.items };
}

/// Arguments that need not stand in memory in a row.
pub trait Listed {
    ghost use Rattle.std.specs.Prelude.{List, ℕ, slice_index};

    ghost items: { Self → List ℕ };

    /// How many there are.
    fn len(&self) -> usize
        ensures { result ≡ length (items self.now) };

    /// The one at a place.
    fn at(&self, i: usize) -> u32
        requires { i < length (items self.now) }
        ensures { result ≡ slice_index (items self.now) i };
}

/// Whether a key is the arguments.
fn is_listed<L: Listed>(key: &[u32], args: &L) -> bool
    ensures { result ≡ same_args (L.items args.now) key.now }
{
    if key.len() != args.len() {
        return false;
    }
    for (i, x) in key.iter().enumerate() {
        if args.at(i) != *x {
            return false;
        }
    }
    true
}

/// The value at the arguments, found by a pass over the whole table.
fn find_listed<V: Copy, L: Listed>(table: &HashMap<Vec<u32>, V>, args: &L) -> Option<V>
    ensures { result ≡ entries_at table.now (L.items args.now) }
{
    for (key, value) in table {
        if is_listed(key, args) {
            return Some(*value);
        }
    }
    None
}

/// Adds empty tables, until there is one for the head.
fn reach<V: Copy>(
    alloc: Global,
    tables: &mut Vec<HashMap<Vec<u32>, V>>,
    head: usize,
) -> Result<(), AllocError>
    ensures reaches { Reaches tables.old.items tables.new.items }
    ensures ok { OnOk result (head < length tables.new.items) }
{
    'reaching: while tables.len() <= head {
        tables.push(HashMap::new(alloc))?;
    }
    Ok(())
}

impl<V: Copy> GroundMap<V> {
    /// A map for the heads below `heads`, with no value yet.
    pub fn new(alloc: Global, heads: usize) -> Result<GroundMap<V>, AllocError>
        ensures heads { IfOk result (λ m. length m ≡ heads) }
        ensures empty { IfOk result (λ m. IsEmpty m) }
    {
        let mut tables = Vec::new(alloc);
        for _ in 0..heads {
            tables.push(HashMap::new(alloc))?;
        }
        Ok(GroundMap { tables, alloc })
    }

    /// How many heads.
    pub fn heads(&self) -> usize
        ensures { result ≡ length self.now }
    {
        self.tables.len()
    }

    /// The value there, where there is one.
    pub fn get(&self, head: u32, args: &[u32]) -> Option<V>
        ensures { result ≡ value_at self.now head args.now }
    {
        let table = self.tables.get(head as usize)?;
        table.get(args).copied()
    }

    /// The value there, where there is one. It takes a pass over all values of the head: `get` is for arguments in a row.
    pub fn get_listed<L: Listed>(&self, head: u32, args: &L) -> Option<V>
        ensures { result ≡ value_at self.now head (L.items args.now) }
    {
        find_listed(self.tables.get(head as usize)?, args)
    }

    /// Makes the head one of the heads, if it isn't. After want of memory there may be more heads than before.
    pub fn include(&mut self, head: u32) -> Result<(), AllocError>
        ensures ok { OnOk result (head < length self.new) }
        ensures keeps { Keeps self.old self.new }
    {
        reach(self.alloc, &mut self.tables, head as usize)
    }

    /// Puts a value, whether there is one yet or not.
    pub fn insert(&mut self, head: u32, args: &[u32], value: V) -> Result<(), AllocError>
        requires { head < length self.old }
        ensures ok { OnOk result (IsPut self.old self.new head args.now value) }
        ensures err { OnErr result (IsSame self.old self.new) }
    {
        let args = Vec::from_slice(self.alloc, args)?;
        self.tables[head as usize].insert(args, value)?;
        Ok(())
    }

    /// Puts a value where there is one.
    pub fn put(&mut self, head: u32, args: &[u32], value: V)
        requires { IsSome (value_at self.old head args.now) }
        ensures { IsPut self.old self.new head args.now value }
    {
        let Some(place) = self.tables[head as usize].get_mut(args) else {
            unreachable!();
        };
        *place = value;
    }
}
