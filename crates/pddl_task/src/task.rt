//! The task. Begin with `Task::new`, which takes its parts with the tables of its types; the readers take no memory.
ghost use Rattle.std.specs.Prelude.{◌≡◌, ◌<◌, length, slice_get, Some, IfOk, IfSome, bytes_eq, position};
ghost use Rattle.std.specs.List.{list_any};
ghost use Rattle.std.specs.Option.{option_map};
ghost use Rattle.std.specs.Str.{str_to_ascii_lowercase};
ghost use Rattle.name_table.specs.NameTable.{number_in};
ghost use Rattle.hierarchy.specs.Hierarchy.{is_below};
ghost use Rattle.pddl_task.specs.Task.{names_of, parents, AreFlags, changes_pred, changes_func, is_changing_pred, is_changing_func};
ghost use Rattle.pddl_task.specs.inside.Kept.{Marks};
ghost use Rattle.pddl_task.specs.Numbers.{IsNumbered};
ghost use Rattle.pddl_task.specs.WellFormed.{IsWellFormed};

use crate::action::Action;
use crate::condition::Cond;
use crate::declared::TypeName;
use crate::effect::Effect;
use crate::parts::TaskParts;
use crate::start::{Fact, Given};
use hierarchy::Hierarchy;
use name_table::NameTable;
use sqlite_items::Items;
use std::alloc::{AllocError, Global};
use std::marker::Model;

/// A task, which contracts see as its parts.
#[derive(Debug, Drop)]
pub struct Task {
    parts: TaskParts,
    type_names: NameTable,
    hierarchy: Hierarchy,
    changing_preds: Items<bool>,
    changing_funcs: Items<bool>,
}

impl Model for Task {
    ghost use Rattle.pddl_task.specs.declared.parts.TaskParts.{TaskParts};

    ghost Value = { TaskParts };

    ghost use Rattle.pddl_task.specs.contracts.parts.TaskParts as row;

    ghost coded = { row.the_row.coded };

    ghost view = { λ t. t.parts };

    ghost use Rattle.pddl_task.specs.inside.Kept.{IsKept};

    ghost invariant = { λ t. IsKept t.parts t.type_names t.hierarchy t.changing_preds t.changing_funcs };
}

fn mark_pred(flags: &mut [bool], effect: &Effect)
    ensures { Marks flags.old flags.new (λ k. changes_pred k effect.now) }
{
    if let Effect::Put { pred, .. } = effect {
        if (*pred as usize) < flags.len() {
            flags[*pred as usize] = true;
        }
    }
}

fn mark_func(flags: &mut [bool], effect: &Effect)
    ensures { Marks flags.old flags.new (λ k. changes_func k effect.now) }
{
    if let Effect::Change { func, .. } = effect {
        if (*func as usize) < flags.len() {
            flags[*func as usize] = true;
        }
    }
}

fn mark_preds(flags: &mut [bool], effs: &[Effect])
    ensures { Marks flags.old flags.new (λ k. list_any (changes_pred k) effs.now) }
{
    for effect in effs {
        mark_pred(flags, effect);
    }
}

fn mark_funcs(flags: &mut [bool], effs: &[Effect])
    ensures { Marks flags.old flags.new (λ k. list_any (changes_func k) effs.now) }
{
    for effect in effs {
        mark_func(flags, effect);
    }
}

/// For each predicate, whether it is the target of an effect of some action.
fn changing_preds(
    alloc: Global,
    count: usize,
    actions: &[Action],
) -> Result<Items<bool>, AllocError>
    ensures { IfOk result (λ flags. AreFlags flags (is_changing_pred actions.now) count) }
{
    let mut flags = vec![in alloc; false; count]?;
    for action in actions {
        mark_preds(&mut flags, action.effs.as_slice());
    }
    Ok(Items::from_vec(flags))
}

/// For each function, the same.
fn changing_funcs(
    alloc: Global,
    count: usize,
    actions: &[Action],
) -> Result<Items<bool>, AllocError>
    ensures { IfOk result (λ flags. AreFlags flags (is_changing_func actions.now) count) }
{
    let mut flags = vec![in alloc; false; count]?;
    for action in actions {
        mark_funcs(&mut flags, action.effs.as_slice());
    }
    Ok(Items::from_vec(flags))
}

/// Whether lowering a text's letters makes it another.
fn is_lowered(text: &str, lowered: &str) -> bool
    ensures { result ≡ bytes_eq lowered.now (str_to_ascii_lowercase text.now) }
{
    let text = text.as_bytes();
    let lowered = lowered.as_bytes();
    if text.len() != lowered.len() {
        return false;
    }
    for (i, byte) in text.iter().enumerate() {
        if byte.to_ascii_lowercase() != lowered[i] {
            return false;
        }
    }
    true
}

/// The place of the type whose name is this one, lowered.
fn place_of(types: &[TypeName], name: &str) -> Option<usize>
    ensures value { result ≡ position (λ t. bytes_eq t.name (str_to_ascii_lowercase name.now)) types.now }
    ensures within { IfSome result (λ t. t < length types.now) }
{
    types
        .iter()
        .position(|each| is_lowered(name, each.name.as_str()))
}

/// The number of that type.
fn find_type(types: &[TypeName], name: &str) -> Option<usize>
    ensures value { result ≡ number_in (names_of types.now) (str_to_ascii_lowercase name.now) }
    ensures within { IfSome result (λ t. t < length types.now) }
{
    place_of(types, name)
}

impl Task {
    /// The task with these parts. The tables are those of its types: their names, and the types above them.
    pub fn new(
        alloc: Global,
        parts: TaskParts,
        type_names: NameTable,
        hierarchy: Hierarchy,
    ) -> Result<Task, AllocError>
        requires names { type_names ≡ names_of parts.types }
        requires above { hierarchy ≡ parents parts.types }
        requires well_formed { IsWellFormed parts }
        ensures { IfOk result (λ t. t ≡ parts) }
    {
        let changing_preds = changing_preds(alloc, parts.preds.len(), parts.actions.as_slice())?;
        let changing_funcs = changing_funcs(alloc, parts.funcs.len(), parts.actions.as_slice())?;
        Ok(Task {
            parts,
            type_names,
            hierarchy,
            changing_preds,
            changing_funcs,
        })
    }

    /// Each task is well formed. This is a law for callers, and does nothing.
    pub fn well_formed(&self)
        ensures { IsWellFormed self.now }
    {
        let _ = &self.parts;
    }

    /// How many types.
    pub fn types(&self) -> u32
        ensures value { result ≡ length self.now.types }
        ensures numbered { IsNumbered self.now }
    {
        self.parts.types.len() as u32
    }

    /// How many objects.
    pub fn objects(&self) -> u32
        ensures value { result ≡ length self.now.objects }
        ensures numbered { IsNumbered self.now }
    {
        self.parts.objects.len() as u32
    }

    /// How many predicates.
    pub fn preds(&self) -> u32
        ensures value { result ≡ length self.now.preds }
        ensures numbered { IsNumbered self.now }
    {
        self.parts.preds.len() as u32
    }

    /// How many functions.
    pub fn funcs(&self) -> u32
        ensures value { result ≡ length self.now.funcs }
        ensures numbered { IsNumbered self.now }
    {
        self.parts.funcs.len() as u32
    }

    /// The name of an object, in lower case.
    pub fn object_name(&self, o: u32) -> &str
        requires { o < length self.now.objects }
        ensures { option_map (λ x. x.name) (slice_get self.now.objects o) ≡ Some result.now }
    {
        self.parts.objects.as_slice()[o as usize].name.as_str()
    }

    /// The type that an object is declared with.
    pub fn object_type(&self, o: u32) -> u32
        requires { o < length self.now.objects }
        ensures value { option_map (λ x. x.of) (slice_get self.now.objects o) ≡ Some result }
        ensures within { result < length self.now.types }
    {
        self.parts.objects.as_slice()[o as usize].of
    }

    /// The type with this name, whose letters are lowered.
    pub fn type_named(&self, name: &str) -> Option<u32>
        ensures value { result ≡ number_in (names_of self.now.types) (str_to_ascii_lowercase name.now) }
        ensures within { IfSome result (λ t. t < length self.now.types) }
    {
        match find_type(self.parts.types.as_slice(), name) {
            Some(number) => Some(number as u32),
            None => None,
        }
    }

    /// Whether a type is another or below it.
    pub fn below(&self, t: u32, u: u32) -> bool
        requires lower { t < length self.now.types }
        requires upper { u < length self.now.types }
        ensures { result ≡ is_below (parents self.now.types) t u }
    {
        self.hierarchy.below(t, u)
    }

    /// The actions, in text order.
    pub fn actions(&self) -> &[Action]
        ensures value { result.now ≡ self.now.actions }
        ensures numbered { IsNumbered self.now }
    {
        self.parts.actions.as_slice()
    }

    /// The atoms that are true at the start, in text order.
    pub fn facts(&self) -> &[Fact]
        ensures value { result.now ≡ self.now.facts }
        ensures numbered { IsNumbered self.now }
    {
        self.parts.facts.as_slice()
    }

    /// The values that are given at the start, in text order.
    pub fn values(&self) -> &[Given]
        ensures value { result.now ≡ self.now.values }
        ensures numbered { IsNumbered self.now }
    {
        self.parts.values.as_slice()
    }

    /// The leaves of the goal, in text order.
    pub fn goal(&self) -> &[Cond]
        ensures value { result.now ≡ self.now.goal }
        ensures numbered { IsNumbered self.now }
    {
        self.parts.goal.as_slice()
    }

    /// Whether an effect of some action names the predicate.
    pub fn changing_pred(&self, p: u32) -> bool
        requires { p < length self.now.preds }
        ensures { result ≡ is_changing_pred self.now.actions p }
    {
        self.changing_preds.as_slice()[p as usize]
    }

    /// Whether an effect of some action names the function.
    pub fn changing_func(&self, f: u32) -> bool
        requires { f < length self.now.funcs }
        ensures { result ≡ is_changing_func self.now.actions f }
    {
        self.changing_funcs.as_slice()[f as usize]
    }
}
