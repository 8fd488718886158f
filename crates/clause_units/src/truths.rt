//! Which Booleans are true and which are false. Those that are either are listed too, so that taking all back costs what was set.
ghost use Rattle.std.specs.Prelude.{◌≡◌, ◌<◌, ◌++◌, ◌∷◌, [], length, replicate, slice_get, slice_set, Some, None, IfOk, OnOk, OnErr};
ghost use Rattle.clause_units.specs.Truth.{truth_of};

use formula::Lit;
use std::alloc::{AllocError, Global};
use std::marker::Model;

/// For each Boolean whether it is true, where it is assigned.
#[derive(Drop)]
pub struct Truths {
    table: Vec<Option<bool>>,
    assigned: Vec<usize>,
}

impl Model for Truths {
    ghost use Rattle.std.specs.Prelude.{List, Bool, Option};
    ghost use Rattle.clause_units.specs.Truth.{AreListed};

    ghost Value = { List (Option Bool) };

    ghost view = { λ t. t.table.items };

    ghost invariant = { λ t. AreListed t.table.items t.assigned.items };
}

impl Truths {
    /// Nothing is assigned.
    pub fn new(alloc: Global, booleans: usize) -> Result<Truths, AllocError>
        ensures { IfOk result (λ t. t ≡ replicate booleans None) }
    {
        Ok(Truths {
            table: vec![in alloc; None; booleans]?,
            assigned: Vec::new(alloc),
        })
    }

    /// Whether the literal is true, where its Boolean is assigned.
    pub fn truth(&self, lit: Lit) -> Option<bool>
        ensures { result ≡ truth_of self.now lit }
    {
        let _ = &self.assigned;
        truth_in(self.table.as_slice(), lit)
    }

    /// Makes a literal true.
    pub fn assign(&mut self, lit: Lit) -> Result<(), AllocError>
        requires { lit.boolean < length self.old }
        ensures done { OnOk result (self.new ≡ slice_set self.old lit.boolean (Some lit.pos)) }
        ensures same { OnErr result (self.new ≡ self.old) }
    {
        let boolean = lit.boolean as usize;
        self.assigned.push(boolean)?;
        self.table[boolean] = Some(lit.pos);
        Ok(())
    }

    /// Takes all back.
    pub fn clear(&mut self)
        ensures { self.new ≡ replicate (length self.old) None }
    {
        while let Some(boolean) = self.assigned.pop() {
            if boolean < self.table.len() {
                self.table[boolean] = None;
            }
        }
    }

    /// One more Boolean.
    pub fn add_boolean(&mut self) -> Result<(), AllocError>
        ensures done { OnOk result (self.new ≡ self.old ++ None ∷ []) }
        ensures same { OnErr result (self.new ≡ self.old) }
    {
        let _ = &self.assigned;
        self.table.push(None)?;
        Ok(())
    }
}

fn truth_in(table: &[Option<bool>], lit: Lit) -> Option<bool>
    ensures { result ≡ truth_of table.now lit }
{
    let boolean = lit.boolean as usize;
    if boolean >= table.len() {
        return None;
    }
    match table[boolean] {
        Some(truth) => Some(truth == lit.pos),
        None => None,
    }
}
