//! `Tables`: the numbered atoms and functions of a task, as far as they are seen.
ghost use Rattle.std.specs.Prelude.{◌≡◌, [], take, OnOk};
ghost use Rattle.std.specs.List.{flat_map};
ghost use Rattle.ground_walk.specs.Sightings.{cond_atoms, cond_funcs, instance_atoms, instance_funcs};
ghost use Rattle.ground_walk.specs.Walk.{fact_atoms, given_funcs};
ghost use Rattle.ground_seen.specs.Seen.{seen, Sees};

use crate::changing::{changes_func, changes_pred};
use crate::leaves::{see_conditions, see_effects};
use ground_numbers::Numbers;
use pddl_task::{Action, Fact, Given, Task};
use std::alloc::{AllocError, Global};

/// The atoms and the functions.
#[derive(Debug, Drop)]
pub struct Tables {
    pub atoms: Numbers,
    pub funcs: Numbers,
}

fn see_fact(task: &Task, atoms: &mut Numbers, fact: &Fact) -> Result<(), AllocError>
    ensures { OnOk result (atoms.new ≡ seen atoms.old (fact_atoms task.now fact.now)) }
{
    if changes_pred(task, fact.pred) {
        atoms.see(fact.pred, fact.args.as_slice())?;
    }
    Ok(())
}

fn see_facts(task: &Task, atoms: &mut Numbers, facts: &[Fact]) -> Result<(), AllocError>
    ensures { OnOk result (atoms.new ≡ seen atoms.old (flat_map (fact_atoms task.now) facts.now)) }
{
    for fact in facts {
        see_fact(task, atoms, fact)?;
    }
    Ok(())
}

fn see_value(task: &Task, funcs: &mut Numbers, given: &Given) -> Result<(), AllocError>
    ensures { OnOk result (funcs.new ≡ seen funcs.old (given_funcs task.now given.now)) }
{
    if changes_func(task, given.func) {
        funcs.see(given.func, given.args.as_slice())?;
    }
    Ok(())
}

fn see_values(task: &Task, funcs: &mut Numbers, values: &[Given]) -> Result<(), AllocError>
    ensures { OnOk result (funcs.new ≡ seen funcs.old (flat_map (given_funcs task.now) values.now)) }
{
    for given in values {
        see_value(task, funcs, given)?;
    }
    Ok(())
}

impl Tables {
    /// Tables of nothing. Takes no memory.
    pub fn new(alloc: Global) -> Tables
        ensures atoms { result.atoms ≡ [] }
        ensures funcs { result.funcs ≡ [] }
    {
        Tables {
            atoms: Numbers::new(alloc),
            funcs: Numbers::new(alloc),
        }
    }

    /// Sees what is given at the start: the facts of changing predicates and the values of changing functions.
    pub fn see_start(&mut self, task: &Task) -> Result<(), AllocError>
        ensures { OnOk result (Sees self.old self.new (flat_map (fact_atoms task.now) task.now.facts) (flat_map (given_funcs task.now) task.now.values)) }
    {
        see_facts(task, &mut self.atoms, task.facts())?;
        see_values(task, &mut self.funcs, task.values())
    }

    /// Sees what an instance names: the leaves of its condition, then those of its effect.
    pub fn see_instance(
        &mut self,
        alloc: Global,
        task: &Task,
        action: &Action,
        args: &[u32],
    ) -> Result<(), AllocError>
        ensures { OnOk result (Sees self.old self.new (instance_atoms task.now action.now args.now) (instance_funcs task.now action.now args.now)) }
    {
        see_conditions(alloc, task, self, args, action.conds.as_slice())?;
        see_effects(alloc, task, self, args, action.effs.as_slice())
    }

    /// Sees what the goal names.
    pub fn see_goal(&mut self, alloc: Global, task: &Task) -> Result<(), AllocError>
        ensures { OnOk result (Sees self.old self.new (flat_map (cond_atoms task.now []) task.now.goal) (flat_map (cond_funcs task.now []) task.now.goal)) }
    {
        see_conditions(alloc, task, self, &[], task.goal())
    }

    /// Takes back what was seen since there were so many atoms and functions.
    pub fn forget_from(&mut self, atoms: u64, funcs: u64)
        ensures atoms { self.new.atoms ≡ take atoms self.old.atoms }
        ensures funcs { self.new.funcs ≡ take funcs self.old.funcs }
    {
        self.atoms.forget_from(atoms);
        self.funcs.forget_from(funcs);
    }
}
