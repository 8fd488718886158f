//! States of a plan: for each predicate and each function a hash table by arguments. An atom or a function that isn't in
//! its table is false, or has no value; so a place for it can be made first, and filled without memory later.
ghost use Rattle.std.specs.Prelude.{◌≡◌, Some, OnOk, IfOk};
ghost use Rattle.plan_step.specs.State.{initial};
ghost use Rattle.plan_step.specs.inside.Start.{with_facts, with_given, with_given_values};
ghost use Rattle.plan_step.specs.Held.{Held, state_of};
ghost use Rattle.plan_step.specs.Places.{HasAtom, HasFunction, KeepsPlaces, with_atom, with_function};

use frac128::Frac;
use ground_map::{GroundMap, Listed};
use pddl_task::{Fact, Given, Task};
use std::alloc::{AllocError, Global};
use std::marker::Model;

/// Contracts see what it holds, and by `state_of` the state that it is.
#[derive(Debug, Drop)]
pub struct State {
    truths: GroundMap<bool>,
    values: GroundMap<Option<Frac>>,
}

impl Model for State {
    ghost use Rattle.plan_step.specs.Held.{Held, held_code};

    ghost Value = { Held };

    ghost coded = { held_code };

    ghost view = { λ s. record { truths = s.truths; values = s.values } };
}

/// Makes the facts true.
fn add_facts(state: &mut State, facts: &[Fact]) -> Result<(), AllocError>
    ensures { OnOk result (state_of state.new ≡ with_facts facts.now (state_of state.old)) }
{
    for fact in facts {
        state.make_atom_place(fact.pred, fact.args.as_slice())?;
        state.put_atom(fact.pred, fact.args.as_slice(), true);
    }
    Ok(())
}

/// Gives one function its value, if it has none.
fn add_value(state: &mut State, given: &Given) -> Result<(), AllocError>
    ensures { OnOk result (state_of state.new ≡ with_given given.now (state_of state.old)) }
{
    let args = given.args.as_slice();
    if state.value(given.func, args).is_none() {
        state.make_function_place(given.func, args)?;
        state.put_value(given.func, args, Some(given.value));
    }
    Ok(())
}

/// Gives functions their values. Of several values of one function the first one counts.
fn add_values(state: &mut State, values: &[Given]) -> Result<(), AllocError>
    ensures { OnOk result (state_of state.new ≡ with_given_values values.now (state_of state.old)) }
{
    for given in values {
        add_value(state, given)?;
    }
    Ok(())
}

impl State {
    /// The initial state: the facts are true, and functions have the values that are given.
    pub fn initial(alloc: Global, task: &Task) -> Result<State, AllocError>
        ensures { IfOk result (λ s. state_of s ≡ initial task.now) }
    {
        let mut state = State {
            truths: GroundMap::new(alloc, task.preds() as usize)?,
            values: GroundMap::new(alloc, task.funcs() as usize)?,
        };
        add_facts(&mut state, task.facts())?;
        add_values(&mut state, task.values())?;
        Ok(state)
    }

    /// Whether the atom is true.
    pub fn atom(&self, pred: u32, args: &[u32]) -> bool
        ensures { result ≡ (state_of self.now).truth pred args.now }
    {
        self.truths.get(pred, args).unwrap_or(false)
    }

    /// The function's value, where it has one.
    pub fn value(&self, func: u32, args: &[u32]) -> Option<Frac>
        ensures { result ≡ (state_of self.now).value func args.now }
    {
        self.values.get(func, args).unwrap_or(None)
    }

    /// The same at arguments that don't stand in a row; it takes a pass over all that is held of the predicate.
    pub(crate) fn atom_listed<L: Listed>(&self, pred: u32, args: &L) -> bool
        ensures { result ≡ (state_of self.now).truth pred (L.items args.now) }
    {
        self.truths.get_listed(pred, args).unwrap_or(false)
    }

    pub(crate) fn value_listed<L: Listed>(&self, func: u32, args: &L) -> Option<Frac>
        ensures { result ≡ (state_of self.now).value func (L.items args.now) }
    {
        self.values.get_listed(func, args).unwrap_or(None)
    }

    /// Makes a place for the atom, which keeps its truth.
    pub(crate) fn make_atom_place(&mut self, pred: u32, args: &[u32]) -> Result<(), AllocError>
        ensures same { state_of self.new ≡ state_of self.old }
        ensures keeps { KeepsPlaces self.old self.new }
        ensures place { OnOk result (HasAtom self.new pred args.now) }
    {
        if self.truths.get(pred, args).is_none() {
            self.truths.include(pred)?;
            self.truths.insert(pred, args, false)?;
        }
        Ok(())
    }

    /// Makes a place for the function, which keeps its value.
    pub(crate) fn make_function_place(&mut self, func: u32, args: &[u32]) -> Result<(), AllocError>
        ensures same { state_of self.new ≡ state_of self.old }
        ensures keeps { KeepsPlaces self.old self.new }
        ensures place { OnOk result (HasFunction self.new func args.now) }
    {
        if self.values.get(func, args).is_none() {
            self.values.include(func)?;
            self.values.insert(func, args, None)?;
        }
        Ok(())
    }

    pub(crate) fn put_atom(&mut self, pred: u32, args: &[u32], truth: bool)
        requires { HasAtom self.old pred args.now }
        ensures put { state_of self.new ≡ with_atom (state_of self.old) pred args.now truth }
        ensures keeps { KeepsPlaces self.old self.new }
    {
        self.truths.put(pred, args, truth);
    }

    /// The function, which has a place, gets this value. It takes no memory.
    pub fn put_value(&mut self, func: u32, args: &[u32], value: Option<Frac>)
        requires { HasFunction self.old func args.now }
        ensures put { state_of self.new ≡ with_function (state_of self.old) func args.now value }
        ensures keeps { KeepsPlaces self.old self.new }
    {
        self.values.put(func, args, value);
    }
}
