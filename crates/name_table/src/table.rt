//! `NameTable`: a set of texts in the order of their insertion.
ghost use Rattle.std.specs.Prelude.{◌≡◌, ◌<◌, [], length, not, is_some, slice_get, Some, IfSome, IfOk, OnOk, OnErr};
ghost use Rattle.name_table.specs.NameTable.{number_in, with_name, AreDistinct};

use indexmap::IndexSet;
use std::alloc::{AllocError, Global};
use std::marker::Model;

/// Names, each once. Contracts see the list of their bytes, by number.
#[derive(Debug, Drop)]
pub struct NameTable {
    names: IndexSet<String>,
}

impl Model for NameTable {
    ghost use Rattle.std.specs.Prelude.{◌<◌, ◌^◌, List, ℕ, map, string_bytes};
    ghost use Rattle.std.specs.Coded.{coded_list, coded_ℕ};

    ghost Value = { List (List ℕ) };

    ghost coded = { coded_list (coded_list coded_ℕ) };

    ghost view = { λ t. map string_bytes t.names.keys };

    ghost use Rattle.std.specs.String.{string_eq};
    ghost use Rattle.indexmap.specs.IndexSet.{IsUnique, index_set_len};

    ghost invariant = { λ t. IsUnique string_eq t.names × (index_set_len t.names < 2 ^ 32) };
}

impl NameTable {
    /// A table without a name. Takes no memory.
    pub fn new(alloc: Global) -> NameTable
        ensures { result ≡ [] }
    {
        NameTable {
            names: IndexSet::new(alloc),
        }
    }

    /// How many names.
    pub fn len(&self) -> u32
        ensures len { result ≡ length self.now }
        ensures distinct { AreDistinct self.now }
    {
        self.names.len() as u32
    }

    /// The number of the name, where the table has it.
    pub fn find(&self, name: &str) -> Option<u32>
        ensures found { result ≡ number_in self.now name.now }
        ensures within { IfSome result (λ number. number < length self.now) }
        ensures distinct { AreDistinct self.now }
    {
        let number = self.names.get_index_of(name)?;
        Some(number as u32)
    }

    /// The name with the number.
    pub fn name(&self, number: u32) -> &str
        requires { number < length self.now }
        ensures { slice_get self.now number ≡ Some result.now }
    {
        self.names.as_slice()[number as usize].as_str()
    }

    /// Gives the name the next number, where it has none yet, and answers whether it had none.
    pub fn add(&mut self, name: &str) -> Result<bool, AllocError>
        requires room { length self.old < 4294967295 }
        ensures added { IfOk result (λ added. added ≡ not (is_some (number_in self.old name.now))) }
        ensures names { OnOk result (self.new ≡ with_name self.old name.now) }
        ensures err { OnErr result (self.new ≡ self.old) }
    {
        if self.names.contains(name) {
            return Ok(false);
        }
        let name = String::from_str(*self.names.allocator(), name)?;
        self.names.insert(name)?;
        Ok(true)
    }
}
