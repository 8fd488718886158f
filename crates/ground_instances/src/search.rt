//! `Search`: the argument lists of an action, one after another.
ghost use Rattle.std.specs.Prelude.{◌≡◌, ◌≤◌, ◌<◌, ℕ, true, length, IfOk, MatchOption};
ghost use Rattle.pddl_task.specs.Numbers.{counts_of, is_action};
ghost use Rattle.plan_step.specs.State.{initial};
ghost use Rattle.plan_step.specs.Held.{state_of};
ghost use Rattle.ground_instances.specs.ArgumentLists.{IsFirst, IsNext, suits};
ghost use Rattle.ground_instances.specs.Index.{IsIndexOf};
ghost use Rattle.ground_instances.specs.inside.Open.{is_open};
ghost use Rattle.ground_instances.specs.inside.Search.{IsCandidate, IsCompleted, IsFollowed};

use crate::choosing::{Choice, choose};
use crate::fitting::all_fit;
use crate::index::FactIndex;
use crate::meeting::all_met;
use pddl_task::{Action, Task};
use plan_step::State;
use std::alloc::{AllocError, Global};

/// What a search goes by: an action of a task, with the task's initial state and the index of its facts.
#[derive(Drop)]
pub struct Search<'a> {
    pub alloc: Global,
    pub task: &'a Task,
    pub start: &'a State,
    pub facts: &'a FactIndex,
    pub action: &'a Action,
}

/// Whether the first arguments fit, and meet the static conditions that they bind.
fn opens(search: &Search, args: &[u32]) -> Result<bool, AllocError>
    requires start { state_of search.now.start.now ≡ initial search.now.task.now }
    requires numbered { is_action (counts_of search.now.task.now) search.now.action.now ≡ true }
    ensures { IfOk result (λ opens. opens ≡ is_open search.now.task.now search.now.action.now args.now) }
{
    let action = search.action;
    if !all_fit(search.task, action.params.as_slice(), args) {
        return Ok(false);
    }
    all_met(
        search.alloc,
        search.task,
        search.start,
        action.params.len() as u64,
        args,
        action.conds.as_slice(),
    )
}

/// The next object, from one on, that can follow the first arguments: by the first condition that binds it, or by number.
fn candidate(search: &Search, args: &[u32], low: u64) -> Result<Option<u32>, AllocError>
    requires index { IsIndexOf search.now.facts.now search.now.task.now.facts }
    requires numbered { is_action (counts_of search.now.task.now) search.now.action.now ≡ true }
    ensures { IfOk result (λ object. IsCandidate (length search.now.task.now.objects) (is_open search.now.task.now search.now.action.now) args.now low object) }
{
    let params = search.action.params.len() as u64;
    for cond in search.action.conds.as_slice() {
        match choose(
            search.alloc,
            search.task,
            search.facts,
            params,
            args,
            cond,
            low,
        )? {
            Choice::Next(object) => return Ok(Some(object)),
            Choice::Nothing => return Ok(None),
            Choice::Unbound => {}
        }
    }
    if low < search.task.objects() as u64 {
        Ok(Some(low as u32))
    } else {
        Ok(None)
    }
}

/// Writes the first completion of the first arguments by objects, the next of which is `low` or above it.
fn complete(search: &Search, args: &mut [u32], at: usize, low: u64) -> Result<bool, AllocError>
    requires start { state_of search.now.start.now ≡ initial search.now.task.now }
    requires index { IsIndexOf search.now.facts.now search.now.task.now.facts }
    requires numbered { is_action (counts_of search.now.task.now) search.now.action.now ≡ true }
    requires within { at ≤ length args.old }
    ensures { IfOk result (λ found. IsCompleted (length search.now.task.now.objects) (is_open search.now.task.now search.now.action.now) args.old at low found args.new) }
{
    if at == args.len() {
        return Ok(true);
    }
    let mut low = low;
    while let Some(object) = candidate(search, &args[..at], low)? {
        args[at] = object;
        if opens(search, &args[..at + 1])? && complete(search, args, at + 1, 0)? {
            return Ok(true);
        }
        low = object as u64 + 1;
    }
    Ok(false)
}

/// Writes the next list with the same first arguments.
fn follow(search: &Search, args: &mut [u32], at: usize) -> Result<bool, AllocError>
    requires start { state_of search.now.start.now ≡ initial search.now.task.now }
    requires index { IsIndexOf search.now.facts.now search.now.task.now.facts }
    requires numbered { is_action (counts_of search.now.task.now) search.now.action.now ≡ true }
    requires within { at ≤ length args.old }
    ensures { IfOk result (λ found. IsFollowed (length search.now.task.now.objects) (is_open search.now.task.now search.now.action.now) args.old at found args.new) }
{
    if at == args.len() {
        return Ok(false);
    }
    if follow(search, args, at + 1)? {
        return Ok(true);
    }
    let low = args[at] as u64 + 1;
    complete(search, args, at, low)
}

impl<'a> Search<'a> {
    /// Writes the first argument list, and answers whether there is one.
    pub fn first(&self, args: &mut [u32]) -> Result<bool, AllocError>
        requires start { state_of self.now.start.now ≡ initial self.now.task.now }
        requires index { IsIndexOf self.now.facts.now self.now.task.now.facts }
        requires numbered { is_action (counts_of self.now.task.now) self.now.action.now ≡ true }
        requires arity { length args.old ≡ length self.now.action.now.params }
        ensures { IfOk result (λ found. IsFirst self.now.task.now self.now.action.now found args.new) }
    {
        if !opens(self, &[])? {
            return Ok(false);
        }
        complete(self, args, 0, 0)
    }

    /// Writes the next argument list in the place of one, and answers whether there is one.
    pub fn next(&self, args: &mut [u32]) -> Result<bool, AllocError>
        requires start { state_of self.now.start.now ≡ initial self.now.task.now }
        requires index { IsIndexOf self.now.facts.now self.now.task.now.facts }
        requires numbered { is_action (counts_of self.now.task.now) self.now.action.now ≡ true }
        requires arity { length args.old ≡ length self.now.action.now.params }
        requires suits { suits self.now.task.now self.now.action.now args.old ≡ true }
        ensures { IfOk result (λ found. IsNext self.now.task.now self.now.action.now args.old found args.new) }
    {
        follow(self, args, 0)
    }
}
