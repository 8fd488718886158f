//! The names whose taking failed, from which a shelf counts its faults.
//!
//! Room for one more name is made by `prepare` before anything is read, so that `note` after a failure needs no
//! memory.
ghost use Rattle.std.specs.Prelude.{◌≡◌, ◌≢◌, ◌≤◌, ℕ, List, [], OnOk, IfOk, string_bytes};
ghost use Rattle.patty_io.specs.Faults.{Rose};

use std::alloc::{AllocError, Global};

#[derive(Drop)]
pub struct Failures {
    pub names: Vec<String>,
}

impl Failures {
    ghost use Rattle.patty_io.specs.Failures.{failures_of};
    ghost use Rattle.patty_io.specs.inside.Room.{HasRoom};

    pub fn new(alloc: Global) -> Failures
        ensures { result.names.items ≡ [] }
    {
        Failures {
            names: Vec::new(alloc),
        }
    }

    /// A copy of the name, and room for it.
    pub fn prepare(&mut self, alloc: Global, name: &str) -> Result<String, AllocError>
        ensures copy { IfOk result (λ s. string_bytes s ≡ name.now) }
        ensures room { OnOk result (HasRoom self.new) }
        ensures same { self.new.names.items ≡ self.old.names.items }
    {
        self.names.reserve(1)?;
        String::from_str(alloc, name)
    }

    /// Counts one more failure of the name.
    pub fn note(&mut self, name: String)
        requires { HasRoom self.old }
        ensures counted { Rose (failures_of self.old (string_bytes name)) (failures_of self.new (string_bytes name)) }
        ensures later { (of : List ℕ) → failures_of self.old of ≤ failures_of self.new of }
        ensures others { (other : List ℕ) → other ≢ string_bytes name → failures_of self.new other ≡ failures_of self.old other }
    {
        match self.names.push(name) {
            Ok(()) => {}
            Err(_) => unreachable!(),
        }
    }
}
