//! Ground tasks. `GroundTask::new` takes the parts; the readers take no memory, and each tells what is promised of a task.
ghost use Rattle.std.specs.Prelude.{◌≡◌, ◌<◌, length, slice_get, Some};
ghost use Rattle.task_core.specs.Task.{GroundParts, IsGroundTask, value_at_start, start};

use crate::action::GAction;
use frac128::Frac;
use sqlite_items::Items;
use std::marker::Model;

/// A ground task, which contracts see as its parts. Atoms, functions and actions are numbered from 0. Where k functions have
/// no value at the start, the last k atoms say, in order of function number, that each of them has one.
#[derive(Debug, Drop)]
pub struct GroundTask {
    atoms: Items<bool>,
    funcs: Items<Option<Frac>>,
    actions: Items<GAction>,
    goal: GAction,
}

impl Model for GroundTask {
    ghost use Rattle.task_core.specs.Task.{GroundParts, IsGroundTask};

    ghost Value = { GroundParts };

    ghost view = { λ t. record { atoms = t.atoms; funcs = t.funcs; actions = t.actions; goal = t.goal } };

    ghost invariant = { λ t. IsGroundTask (record { atoms = t.atoms; funcs = t.funcs; actions = t.actions; goal = t.goal }) };
}

impl GroundTask {
    /// The task with these parts: the truth of each atom and the value of each function at the start, the actions, and the
    /// goal, which is an action without effects.
    pub fn new(
        atoms: Vec<bool>,
        funcs: Vec<Option<Frac>>,
        actions: Vec<GAction>,
        goal: GAction,
    ) -> GroundTask
        requires { IsGroundTask (record { atoms = atoms.items; funcs = funcs.items; actions = actions.items; goal = goal }) }
        ensures { result ≡ record { atoms = atoms.items; funcs = funcs.items; actions = actions.items; goal = goal } }
    {
        GroundTask {
            atoms: Items::from_vec(atoms),
            funcs: Items::from_vec(funcs),
            actions: Items::from_vec(actions),
            goal,
        }
    }

    /// How many atoms.
    pub fn atoms(&self) -> u64
        ensures value { result ≡ length self.now.atoms }
        ensures promised { IsGroundTask self.now }
    {
        self.atoms.len() as u64
    }

    /// How many functions.
    pub fn funcs(&self) -> u64
        ensures value { result ≡ length self.now.funcs }
        ensures promised { IsGroundTask self.now }
    {
        self.funcs.len() as u64
    }

    /// The actions.
    pub fn actions(&self) -> &[GAction]
        ensures value { result.now ≡ self.now.actions }
        ensures promised { IsGroundTask self.now }
    {
        self.actions.as_slice()
    }

    /// Whether an atom is true at the start.
    pub fn atom_at_start(&self, a: u64) -> bool
        requires { a < length self.now.atoms }
        ensures { result ≡ (start self.now).truth a }
    {
        self.atoms.as_slice()[a as usize]
    }

    /// The value of a function at the start, if it has one.
    pub fn value_at_start(&self, f: u64) -> Option<Frac>
        requires { f < length self.now.funcs }
        ensures { result ≡ value_at_start self.now f }
    {
        self.funcs.as_slice()[f as usize]
    }

    /// The goal, which holds where its literals and comparisons do.
    pub fn goal(&self) -> &GAction
        ensures value { result.now ≡ self.now.goal }
        ensures promised { IsGroundTask self.now }
    {
        &self.goal
    }
}
