//! Asserted literals with marks. A Boolean is asserted once at most, and there are no more marks than Booleans, so the room that
//! is made at the start and with each new Boolean is enough.
ghost use Rattle.std.specs.Prelude.{◌≡◌, ◌≢◌, ◌<◌, ◌≤◌, ◌+◌, ◌++◌, ◌∷◌, [], Bool, List, None, Some, IfOk, OnOk, OnErr, length, vec_capacity};
ghost use Rattle.std.specs.declared.option.Option.{Option};
ghost use Rattle.std.specs.List.{All};
ghost use Rattle.formula.specs.declared.atom.Lit.{Lit};
ghost use Rattle.theory_law.specs.Seen.{IsAsserted, marks};
ghost use Rattle.asserted.specs.Events.{Events};

use formula::Lit;
use std::alloc::{AllocError, Global};
use std::marker::Model;

/// Literals in the order in which they were asserted, and `None` for a mark, over so many Booleans.
#[derive(Drop)]
pub struct Asserted {
    events: Vec<Option<Lit>>,
    booleans: u64,
}

impl Model for Asserted {
    ghost use Rattle.std.specs.Prelude.{vec_capacity};
    ghost use Rattle.asserted.specs.Events.{Events};
    ghost use Rattle.asserted.specs.inside.Room.{HasRoom};

    ghost Value = { Events };

    ghost view = { λ a. record { events = a.events.items; booleans = a.booleans } };

    ghost invariant = { λ a. HasRoom a.booleans (vec_capacity a.events) a.events.items };
}

/// Makes room for two events a Boolean.
fn reserve(events: &mut Vec<Option<Lit>>, booleans: u64) -> Result<(), AllocError>
    ensures items { events.new.items ≡ events.old.items }
    ensures ok { OnOk result (booleans + booleans ≤ vec_capacity events.new) }
    ensures capacity { vec_capacity events.old ≤ vec_capacity events.new }
{
    let Some(most) = (booleans as usize).checked_mul(2) else {
        return Err(AllocError);
    };
    events.reserve(most.saturating_sub(events.len()))
}

fn push(events: &mut Vec<Option<Lit>>, event: Option<Lit>)
    requires { length events.old.items < vec_capacity events.old }
    ensures items { events.new.items ≡ events.old.items ++ event ∷ [] }
    ensures capacity { vec_capacity events.old ≤ vec_capacity events.new }
{
    if events.push(event).is_err() {
        unreachable!();
    }
}

/// Drops the last mark with all behind it.
fn drop_mark(events: &mut Vec<Option<Lit>>)
    ensures dropped { (before behind : List (Option Lit)) → events.old.items ≡ before ++ None ∷ behind → All (λ e. e ≢ None) behind → events.new.items ≡ before }
    ensures front { (behind : List (Option Lit)) × (events.old.items ≡ events.new.items ++ behind) }
    ensures capacity { vec_capacity events.old ≤ vec_capacity events.new }
{
    'events: while let Some(event) = events.pop() {
        if event.is_none() {
            return;
        }
    }
}

impl Asserted {
    /// Nothing is asserted.
    pub fn new(alloc: Global, booleans: u64) -> Result<Asserted, AllocError>
        ensures { IfOk result (λ a. a ≡ record { events = []; booleans = booleans }) }
    {
        let mut events = Vec::new(alloc);
        reserve(&mut events, booleans)?;
        Ok(Asserted { events, booleans })
    }

    /// Makes room for one more Boolean.
    pub fn add_boolean(&mut self) -> Result<(), AllocError>
        ensures ok { OnOk result (self.new ≡ record self.old { booleans = self.old.booleans + 1 }) }
        ensures err { OnErr result (self.new ≡ self.old) }
    {
        let Some(booleans) = self.booleans.checked_add(1) else {
            return Err(AllocError);
        };
        reserve(&mut self.events, booleans)?;
        self.booleans = booleans;
        Ok(())
    }

    /// What is asserted.
    pub fn events(&self) -> &[Option<Lit>]
        ensures { result.now ≡ self.now.events }
    {
        self.events.as_slice()
    }

    /// Asserts a literal. Takes no memory.
    pub fn put(&mut self, lit: Lit)
        requires low { lit.boolean < self.old.booleans }
        requires open { (s : Bool) → IsAsserted self.old.events (record { boolean = lit.boolean; pos = s }) → ⊥ }
        ensures { self.new ≡ record self.old { events = self.old.events ++ Some lit ∷ [] } }
    {
        push(&mut self.events, Some(lit));
    }

    /// Sets a mark. Takes no memory.
    pub fn mark(&mut self)
        requires { marks self.old.events < self.old.booleans }
        ensures { self.new ≡ record self.old { events = self.old.events ++ None ∷ [] } }
    {
        push(&mut self.events, None);
    }

    /// Drops the last mark, and takes back all that was asserted since. Takes no memory.
    pub fn back(&mut self)
        ensures dropped { (before behind : List (Option Lit)) → self.old.events ≡ before ++ None ∷ behind → All (λ e. e ≢ None) behind → self.new.events ≡ before }
        ensures booleans { self.new.booleans ≡ self.old.booleans }
    {
        drop_mark(&mut self.events);
    }
}
