//! Actions. Begin with `read_action`: a name, and keys with their values.
ghost use Rattle.std.specs.Prelude.{◌≡◌, OnOk, map};
ghost use Rattle.std.specs.Option.{option_map};
ghost use Rattle.kw_table.specs.Table.{Rises};
ghost use Rattle.pddl_form.specs.Gather.{option_both};
ghost use Rattle.pddl_form.specs.Judged.{mapped};
ghost use Rattle.pddl_form.specs.Reading.{Reads};
ghost use Rattle.pddl_form.specs.Words.{word_form};
ghost use Rattle.pddl_form.specs.declared.names.Sort.TheVariants.{Name};
ghost use Rattle.pddl_domain.specs.Action as spec;

use crate::effect::{EffAst, read_effect};
use kw_table::{Table, rows};
use pddl_condition::{CondAst, read_condition};
use pddl_form::{FirstFault, Sort, Spot, Typed, parted, read_typed_list, read_word, word};
use sexpr::Tree;
use sqlite_items::Items;
use std::alloc::{AllocError, Global};

/// An action, its condition and its effect as lists of leaves in text order.
#[derive(Debug, Drop)]
pub struct ActionAst {
    pub name: Spot,
    pub params: Items<Typed>,
    pub conds: Items<CondAst>,
    pub effs: Items<EffAst>,
}

#[derive(Clone, Copy)]
pub enum Key {
    Parameters,
    Precondition,
    Effect,
    Unknown,
}

/// A key's value.
#[derive(Drop)]
pub enum Part {
    Parameters(Items<Typed>),
    Precondition(Items<CondAst>),
    Effect(Items<EffAst>),
}

/// Which keys stood in front.
#[derive(Clone, Copy)]
pub struct SeenKeys {
    pub parameters: bool,
    pub precondition: bool,
    pub effect: bool,
}

const KEYS: Table<3> = Table {
    words: [":effect", ":parameters", ":precondition"],
};

/// The keys of actions stand in byte order.
pub fn action_keys_rise()
    ensures { Rises (map (λ w. w.now) KEYS.words) }
{}

#[tactic(auto, using(crate::proofs::Keywords::key_rows))]
fn find_key(text: &str) -> Key
    ensures { result ≡ spec.key_of text.now }
{
    let table = &KEYS;
    rows! {
        table, text.as_bytes();
        ":effect" => Key::Effect,
        ":parameters" => Key::Parameters,
        ":precondition" => Key::Precondition;
        else => Key::Unknown
    }
}

fn see_key(key: Key, seen: SeenKeys) -> SeenKeys
    ensures { result ≡ spec.see_key key seen }
{
    let mut all = seen;
    match key {
        Key::Parameters => all.parameters = true,
        Key::Precondition => all.precondition = true,
        Key::Effect => all.effect = true,
        Key::Unknown => {}
    }
    all
}

/// Whether a key isn't known, or stands twice.
fn is_wrong_key(key: Key, seen: SeenKeys) -> bool
    ensures { result ≡ spec.is_wrong_key key seen }
{
    match key {
        Key::Parameters => seen.parameters,
        Key::Precondition => seen.precondition,
        Key::Effect => seen.effect,
        Key::Unknown => true,
    }
}

#[tactic(auto, unfolding(pddl_form::specs::Judged::noted, crate::specs::Action::parameters_form))]
fn read_parameters(
    alloc: Global,
    tree: &Tree,
    faults: &mut FirstFault,
) -> Result<Option<Items<Typed>>, AllocError>
    ensures { Reads (spec.parameters_form tree.now) faults.old faults.new result }
{
    let Tree::List { end, items, .. } = tree else {
        faults.misshapen(alloc, tree.start());
        return Ok(None);
    };
    read_typed_list(alloc, Sort::Variable, *end, items.as_slice(), faults)
}

/// A value by its key.
#[tactic(auto, unfolding(pddl_form::specs::Judged::noted))]
fn read_value(
    alloc: Global,
    key: Key,
    word: &Tree,
    value: &Tree,
    faults: &mut FirstFault,
) -> Result<Option<Part>, AllocError>
    ensures { Reads (spec.part_by key word.now value.now) faults.old faults.new result }
{
    match key {
        Key::Parameters => {
            let params = read_parameters(alloc, value, faults)?;
            Ok(params.map(Part::Parameters))
        }
        Key::Precondition => {
            let conds = read_condition(alloc, value, faults)?;
            Ok(conds.map(Part::Precondition))
        }
        Key::Effect => {
            let effs = read_effect(alloc, value, faults)?;
            Ok(effs.map(Part::Effect))
        }
        Key::Unknown => {
            faults.misshapen(alloc, word.start());
            Ok(None)
        }
    }
}

/// A key with its value.
#[tactic(auto, unfolding(pddl_form::specs::Judged::noted, crate::specs::Action::part_form))]
fn read_part(
    alloc: Global,
    seen: SeenKeys,
    key: &Tree,
    value: &Tree,
    faults: &mut FirstFault,
) -> Result<Option<Part>, AllocError>
    ensures { Reads (spec.part_form seen key.now value.now) faults.old faults.new result }
{
    let kind = find_key(word(key));
    if is_wrong_key(kind, seen) {
        faults.misshapen(alloc, key.start());
        return Ok(None);
    }
    read_value(alloc, kind, key, value, faults)
}

/// A key that lacks its value.
#[tactic(auto, unfolding(pddl_form::specs::Judged::noted, crate::specs::Action::lone_key))]
fn read_lone_key(
    alloc: Global,
    seen: SeenKeys,
    key: &Tree,
    end: u32,
    faults: &mut FirstFault,
) -> Result<Option<Items<Part>>, AllocError>
    ensures { Reads (spec.lone_key seen key.now end) faults.old faults.new result }
{
    if is_wrong_key(find_key(word(key)), seen) {
        faults.misshapen(alloc, key.start());
    }
    faults.lacking(alloc, end);
    Ok(None)
}

fn put_part(action: &mut ActionAst, part: Part) -> Result<(), AllocError>
    ensures { OnOk result (action.new ≡ spec.with_part action.old part) }
{
    match part {
        Part::Parameters(params) => action.params.append(params),
        Part::Precondition(conds) => action.conds.append(conds),
        Part::Effect(effs) => action.effs.append(effs),
    }
}

fn add_part(found: &mut Option<ActionAst>, part: Option<Part>) -> Result<(), AllocError>
    ensures { OnOk result (found.new ≡ option_both spec.with_part found.old part) }
{
    match (found.take(), part) {
        (Some(mut action), Some(part)) => {
            put_part(&mut action, part)?;
            *found = Some(action);
            Ok(())
        }
        _ => Ok(()),
    }
}

fn bare_action(alloc: Global, name: Option<Spot>) -> Option<ActionAst>
    ensures { result ≡ option_map spec.bare_action name }
{
    let Some(name) = name else {
        return None;
    };
    Some(ActionAst {
        name,
        params: Items::new(alloc),
        conds: Items::new(alloc),
        effs: Items::new(alloc),
    })
}

/// What stands behind the word `:action`, in a list that ends before a place.
#[tactic(auto, unfolding(pddl_form::specs::Judged::noted, crate::specs::Action::action_form))]
pub fn read_action(
    alloc: Global,
    end: u32,
    trees: &[Tree],
    faults: &mut FirstFault,
) -> Result<Option<ActionAst>, AllocError>
    ensures { Reads (spec.action_form end trees.now) faults.old faults.new result }
{
    let Some((first, parts)) = parted(trees) else {
        faults.lacking(alloc, end);
        return Ok(None);
    };
    let name = read_word(alloc, Sort::Name, first, faults)?;
    let mut found = bare_action(alloc, name);
    let mut seen = SeenKeys {
        parameters: false,
        precondition: false,
        effect: false,
    };
    let mut rest = parts;
    while let Some((key, behind)) = parted(rest) {
        let Some((value, more)) = parted(behind) else {
            let _none = read_lone_key(alloc, seen, key, end, faults)?;
            return Ok(None);
        };
        let one = read_part(alloc, seen, key, value, faults)?;
        add_part(&mut found, one)?;
        seen = see_key(find_key(word(key)), seen);
        rest = more;
    }
    Ok(found)
}
