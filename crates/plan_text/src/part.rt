//! A part of a plan, from the words and parentheses of its line. Begin with `read_part`.
//!
//! A reader answers none where the line isn't of the form, and what it noted then doesn't count. Else it answers what
//! was written, which is none in its turn where a fault was noted.
ghost use Rattle.std.specs.Prelude.{◌≡◌, ◌≤◌, true, None, Some, drop, length, IfOk};
ghost use Rattle.sexpr.specs.Bytes.{word_of};
ghost use Rattle.sexpr.specs.Tokens.{tokens};
ghost use Rattle.pddl_form.specs.Gather.{option_both};
ghost use Rattle.pddl_form.specs.Reading.{IsRead};
ghost use Rattle.plan_text.specs.Written.{spot_at, is_count, closed_names, call_with, counted, after_count, written};
ghost use Rattle.plan_text.specs.PlanText.{count_judged, numbered, instance_with, call_judged, part_with, part_judged};
ghost use Rattle.plan_text.specs.inside.Pieces.{StandsFirst};
ghost use Rattle.plan_text.specs.inside.Steps.{ReadsAs, name_or_none, arguments_judged};
ghost use Rattle.plan_text.specs.inside.Tables.{names_in};

use crate::count::{find_count, is_count};
use crate::fault::{note_miscounted, note_unknown};
use crate::names::NameTables;
use crate::piece::{Kind, Piece, find_piece};
use pddl_form::{FirstFault, Sort, add, takes};
use pddl_task::Instance;
use plan_form::Part;
use sexpr::{Text, first_word};
use sqlite_items::Items;
use std::alloc::{AllocError, Global};

/// The count that digits write.
#[tactic(auto, unfolding(pddl_form::specs::Judged::noted))]
fn read_count(alloc: Global, digits: &str, place: u32, faults: &mut FirstFault) -> Option<u128>
    requires { is_count digits.now ≡ true }
    ensures { IsRead (count_judged (Some (spot_at place digits.now))) faults.old faults.new result }
{
    let count = find_count(digits);
    if count.is_none() {
        note_miscounted(alloc, place, faults);
    }
    count
}

#[tactic(auto, unfolding(pddl_form::specs::Judged::noted))]
fn read_action(
    alloc: Global,
    tables: &NameTables,
    name: &str,
    place: u32,
    faults: &mut FirstFault,
) -> Option<u32>
    ensures { IsRead (numbered (names_in tables.now).actions (spot_at place name.now)) faults.old faults.new result }
{
    let action = tables.find_action(name);
    if action.is_none() {
        note_unknown(alloc, place, faults);
    }
    action
}

#[tactic(auto, unfolding(pddl_form::specs::Judged::noted))]
fn read_object(
    alloc: Global,
    tables: &NameTables,
    name: &str,
    place: u32,
    faults: &mut FirstFault,
) -> Option<u32>
    ensures { IsRead (numbered (names_in tables.now).objects (spot_at place name.now)) faults.old faults.new result }
{
    let object = tables.find_object(name);
    if object.is_none() {
        note_unknown(alloc, place, faults);
    }
    object
}

/// The word at a place, where it is a name.
fn read_name(alloc: Global, text: &[u8], start: usize) -> Result<Option<Text>, AllocError>
    requires { start ≤ length text.now }
    ensures { IfOk result (λ name. name ≡ name_or_none (word_of (drop start text.now))) }
{
    let word = first_word(alloc, &text[start..])?;
    if takes(Sort::Name, word.as_str()) {
        Ok(Some(word))
    } else {
        Ok(None)
    }
}

/// Objects up to the parenthesis that ends the line.
fn read_arguments(
    alloc: Global,
    tables: &NameTables,
    text: &[u8],
    from: usize,
    faults: &mut FirstFault,
) -> Result<Option<Option<Items<u32>>>, AllocError>
    requires small { length text.now ≤ 67108864 }
    requires within { from ≤ length text.now }
    ensures { IfOk result (ReadsAs (closed_names (tokens from (drop from text.now))) (arguments_judged (names_in tables.now)) faults.old faults.new) }
{
    let mut found = Some(Items::new(alloc));
    let mut at = from;
    while let Some(piece) = find_piece(text, at) {
        match piece.kind {
            Kind::Open => return Ok(None),
            Kind::Close => {
                return match find_piece(text, piece.end) {
                    None => Ok(Some(found)),
                    Some(_) => Ok(None),
                };
            }
            Kind::Word => {
                let Some(name) = read_name(alloc, text, piece.start)? else {
                    return Ok(None);
                };
                let one = read_object(alloc, tables, name.as_str(), piece.start as u32, faults);
                add(&mut found, one)?;
                at = piece.end;
            }
        }
    }
    Ok(None)
}

fn make_instance(action: Option<u32>, args: Option<Items<u32>>) -> Option<Instance>
    ensures { result ≡ option_both instance_with action args }
{
    match (action, args) {
        (Some(action), Some(args)) => Some(Instance { action, args }),
        _ => None,
    }
}

/// An action with its arguments, after the `(`.
fn read_call(
    alloc: Global,
    tables: &NameTables,
    text: &[u8],
    from: usize,
    faults: &mut FirstFault,
) -> Result<Option<Option<Instance>>, AllocError>
    requires small { length text.now ≤ 67108864 }
    requires within { from ≤ length text.now }
    ensures { IfOk result (ReadsAs (call_with (closed_names (tokens from (drop from text.now)))) (call_judged (names_in tables.now)) faults.old faults.new) }
{
    let Some(piece) = find_piece(text, from) else {
        return Ok(None);
    };
    match piece.kind {
        Kind::Open => return Ok(None),
        Kind::Close => return Ok(None),
        Kind::Word => {}
    }
    let Some(name) = read_name(alloc, text, piece.start)? else {
        return Ok(None);
    };
    let action = read_action(alloc, tables, name.as_str(), piece.start as u32, faults);
    let Some(args) = read_arguments(alloc, tables, text, piece.end, faults)? else {
        return Ok(None);
    };
    Ok(Some(make_instance(action, args)))
}

fn make_part(count: Option<u128>, by: Option<Instance>) -> Option<Part>
    ensures { result ≡ option_both part_with count by }
{
    match (count, by) {
        (Some(count), Some(by)) => Some(Part { count, by }),
        _ => None,
    }
}

/// A part without a count.
fn read_uncounted(
    alloc: Global,
    tables: &NameTables,
    text: &[u8],
    from: usize,
    faults: &mut FirstFault,
) -> Result<Option<Option<Part>>, AllocError>
    requires small { length text.now ≤ 67108864 }
    requires within { from ≤ length text.now }
    ensures { IfOk result (ReadsAs (counted None (call_with (closed_names (tokens from (drop from text.now))))) (part_judged (names_in tables.now)) faults.old faults.new) }
{
    let Some(by) = read_call(alloc, tables, text, from, faults)? else {
        return Ok(None);
    };
    Ok(Some(make_part(Some(1), by)))
}

/// A part after its count.
fn read_counted(
    alloc: Global,
    tables: &NameTables,
    text: &[u8],
    word: Piece,
    faults: &mut FirstFault,
) -> Result<Option<Option<Part>>, AllocError>
    requires small { length text.now ≤ 67108864 }
    requires within { word.end ≤ length text.now }
    requires there { word.start ≤ length text.now }
    ensures { IfOk result (ReadsAs (after_count word.start (word_of (drop word.start text.now)) (tokens word.end (drop word.end text.now))) (part_judged (names_in tables.now)) faults.old faults.new) }
{
    let digits = first_word(alloc, &text[word.start..])?;
    if !is_count(digits.as_str()) {
        return Ok(None);
    }
    let Some(open) = find_piece(text, word.end) else {
        return Ok(None);
    };
    match open.kind {
        Kind::Open => {}
        Kind::Close => return Ok(None),
        Kind::Word => return Ok(None),
    }
    let count = read_count(alloc, digits.as_str(), word.start as u32, faults);
    let Some(by) = read_call(alloc, tables, text, open.end, faults)? else {
        return Ok(None);
    };
    Ok(Some(make_part(count, by)))
}

/// The part that a line's first word or parenthesis begins.
pub(crate) fn read_part(
    alloc: Global,
    tables: &NameTables,
    text: &[u8],
    from: usize,
    first: Piece,
    faults: &mut FirstFault,
) -> Result<Option<Option<Part>>, AllocError>
    requires small { length text.now ≤ 67108864 }
    requires first { StandsFirst text.now from first }
    ensures { IfOk result (ReadsAs (written (tokens from (drop from text.now))) (part_judged (names_in tables.now)) faults.old faults.new) }
{
    match first.kind {
        Kind::Open => read_uncounted(alloc, tables, text, first.end, faults),
        Kind::Close => Ok(None),
        Kind::Word => read_counted(alloc, tables, text, first, faults),
    }
}
