//! `Numbers`: ground things in the order of their first sight, each once.
ghost use Rattle.std.specs.Prelude.{◌≡◌, ◌<◌, [], length, take, slice_get, Some, None, IfSome, IfOk, OnErr};
ghost use Rattle.ground_numbers.specs.Numbers.{named, same, found_in, IsSeen, AreDistinct};

use crate::asked::Asked;
use crate::named::Named;
use indexmap::IndexSet;
use sqlite_items::Items;
use std::alloc::{AllocError, Global};
use std::marker::Model;

/// Ground things, each once. Contracts see the list of them, by number.
#[derive(Debug, Drop)]
pub struct Numbers {
    things: IndexSet<Named>,
}

impl Model for Numbers {
    ghost use Rattle.std.specs.Prelude.{List};
    ghost use Rattle.ground_numbers.specs.declared.named.Named.{Named};

    ghost Value = { List Named };

    ghost view = { λ t. t.things.keys };

    ghost use Rattle.ground_numbers.specs.Numbers.{same};
    ghost use Rattle.indexmap.specs.IndexSet.{IsUnique};

    ghost invariant = { λ t. IsUnique same t.things };
}

impl Numbers {
    /// A table of nothing. Takes no memory.
    pub fn new(alloc: Global) -> Numbers
        ensures { result ≡ [] }
    {
        Numbers {
            things: IndexSet::new(alloc),
        }
    }

    /// How many things.
    pub fn len(&self) -> u64
        ensures value { result ≡ length self.now }
        ensures distinct { AreDistinct self.now }
    {
        self.things.len() as u64
    }

    /// The number of a thing, where the table has it.
    pub fn number(&self, symbol: u32, args: &[u32]) -> Option<u64>
        ensures found { result ≡ found_in same self.now (named symbol args.now) }
        ensures within { IfSome result (λ n. n < length self.now) }
    {
        let at = self.things.get_index_of(Asked { symbol, args })?;
        Some(at as u64)
    }

    /// The thing with the number.
    pub fn get(&self, number: u64) -> &Named
        requires { number < length self.now }
        ensures { slice_get self.now number ≡ Some result.now }
    {
        &self.things.as_slice()[number as usize]
    }

    /// The number of a thing, which is the next one where the table hasn't the thing yet.
    pub fn see(&mut self, symbol: u32, args: &[u32]) -> Result<u64, AllocError>
        ensures ok { IfOk result (λ n. IsSeen self.old self.new (named symbol args.now) n) }
        ensures err { OnErr result (self.new ≡ self.old) }
    {
        match self.number(symbol, args) {
            Some(number) => Ok(number),
            None => self.append(symbol, args),
        }
    }

    /// Gives the next number to a thing that the table hasn't.
    fn append(&mut self, symbol: u32, args: &[u32]) -> Result<u64, AllocError>
        requires { found_in same self.old (named symbol args.now) ≡ None }
        ensures ok { IfOk result (λ n. IsSeen self.old self.new (named symbol args.now) n) }
        ensures err { OnErr result (self.new ≡ self.old) }
    {
        let number = self.len();
        let args = Items::from_slice(*self.things.allocator(), args)?;
        self.things.insert(Named { symbol, args })?;
        Ok(number)
    }

    /// Takes back all things from the number on.
    pub fn forget_from(&mut self, number: u64)
        ensures { self.new ≡ take number self.old }
    {
        self.things.truncate(number as usize);
    }
}
