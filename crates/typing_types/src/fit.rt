//! What fits in the place of a parameter: a word of which each type is one of those that are allowed, or below one.
//!
//! Begin with `fits`, which judges a word, and then `judge_call`, which judges a predicate or a function with its
//! arguments. Names that aren't declared are no concern of this pass.
ghost use Rattle.std.specs.Prelude.{◌≡◌, ◌∷◌, ◌++◌, [], ◌<◌, true, length, slice_get, if◌then◌else◌};
ghost use Rattle.std.specs.List.{list_all};
ghost use Rattle.std.specs.Option.{option_copied};
ghost use Rattle.name_table.specs.NameTable.{number_in};
ghost use Rattle.pddl_form.specs.Faults.{least};
ghost use Rattle.pddl_task.specs.Typed as fitting;
ghost use Rattle.typing_types.specs.Types as types;
ghost use Rattle.typing_types.specs.Known.{AreTyped, are_all_types, are_types, declared_of};

use hierarchy::Hierarchy;
use name_table::NameTable;
use pddl_form::{FirstFault, Sort, Spot, takes};
use pddl_task::{Object, Signature};
use sqlite_items::Items;
use std::alloc::Global;
use typing_uses::{Names, note};

/// The tables of names, and what the names are declared with. The objects are those of a problem, and the parameters those
/// of one action: there are none elsewhere.
#[derive(Clone, Copy)]
pub struct Known<'a> {
    pub names: Names<'a>,
    pub hierarchy: &'a Hierarchy,
    pub constants: &'a [Object],
    pub objects: &'a [Object],
    pub preds: &'a [Signature],
    pub funcs: &'a [Signature],
    pub params: &'a [Items<u32>],
}

/// Whether a type is one of these, or below one.
fn is_among(hierarchy: &Hierarchy, allowed: &[u32], t: u32) -> bool
    requires within { t < length hierarchy.now }
    requires allowed { are_types (length hierarchy.now) allowed.now ≡ true }
    ensures { result ≡ fitting.is_among hierarchy.now allowed.now t }
{
    for u in allowed {
        if hierarchy.below(t, *u) {
            return true;
        }
    }
    false
}

fn are_among(hierarchy: &Hierarchy, allowed: &[u32], found: &[u32]) -> bool
    requires within { are_types (length hierarchy.now) found.now ≡ true }
    requires allowed { are_types (length hierarchy.now) allowed.now ≡ true }
    ensures { result ≡ list_all (fitting.is_among hierarchy.now allowed.now) found.now }
{
    for t in found {
        if !is_among(hierarchy, allowed, *t) {
            return false;
        }
    }
    true
}

/// Whether what a parameter allows fits.
fn param_fits(known: &Known, allowed: &[u32], name: &str) -> bool
    requires typed { AreTyped (declared_of known.now) }
    requires allowed { are_types (length known.now.hierarchy.now) allowed.now ≡ true }
    ensures { result ≡ list_all (fitting.is_among known.now.hierarchy.now allowed.now) (types.types_at known.now.params.now (number_in known.now.names.params.now name.now)) }
{
    let Some(number) = known.names.params.find(name) else {
        return true;
    };
    match known.params.get(number as usize) {
        Some(found) => are_among(known.hierarchy, allowed, found.as_slice()),
        None => true,
    }
}

/// The object with a number, among two lists one behind the other.
fn object_at<'a>(front: &'a [Object], behind: &'a [Object], number: u32) -> Option<&'a Object>
    ensures { option_copied result ≡ slice_get (front.now ++ behind.now) number }
{
    let number = number as usize;
    if number < front.len() {
        front.get(number)
    } else {
        behind.get(number - front.len())
    }
}

/// Whether the type of an object fits.
fn object_fits(known: &Known, allowed: &[u32], name: &str) -> bool
    requires typed { AreTyped (declared_of known.now) }
    requires allowed { are_types (length known.now.hierarchy.now) allowed.now ≡ true }
    ensures { result ≡ list_all (fitting.is_among known.now.hierarchy.now allowed.now) (types.type_at (known.now.constants.now ++ known.now.objects.now) (number_in known.now.names.objects.now name.now)) }
{
    let Some(number) = known.names.objects.find(name) else {
        return true;
    };
    match object_at(known.constants, known.objects, number) {
        Some(object) => is_among(known.hierarchy, allowed, object.of),
        None => true,
    }
}

/// Whether a word fits where these types are allowed.
fn fits(known: &Known, allowed: &[u32], spot: &Spot) -> bool
    requires typed { AreTyped (declared_of known.now) }
    requires allowed { are_types (length known.now.hierarchy.now) allowed.now ≡ true }
    ensures { result ≡ types.fits (declared_of known.now) allowed.now spot.now }
{
    let name = spot.text.as_str();
    if takes(Sort::Variable, name) {
        param_fits(known, allowed, name)
    } else {
        object_fits(known, allowed, name)
    }
}

pub(crate) fn note_misfit(alloc: Global, place: u32, faults: &mut FirstFault)
    ensures { faults.new ≡ least faults.old (types.misfit place ∷ []) }
{
    note(alloc, 9, place, faults);
}

fn note_arity(alloc: Global, place: u32, faults: &mut FirstFault)
    ensures { faults.new ≡ least faults.old (types.arity place ∷ []) }
{
    note(alloc, 8, place, faults);
}

/// An argument where these types are allowed.
fn judge_argument(
    alloc: Global,
    known: &Known,
    allowed: &[u32],
    spot: &Spot,
    faults: &mut FirstFault,
)
    requires typed { AreTyped (declared_of known.now) }
    requires allowed { are_types (length known.now.hierarchy.now) allowed.now ≡ true }
    ensures { faults.new ≡ least faults.old (if types.fits (declared_of known.now) allowed.now spot.now then [] else types.misfit spot.now.place ∷ []) }
{
    if !fits(known, allowed, spot) {
        note_misfit(alloc, spot.place, faults);
    }
}

/// Arguments in the places of parameters, as far as there are both.
fn judge_arguments(
    alloc: Global,
    known: &Known,
    params: &[Items<u32>],
    args: &[Spot],
    faults: &mut FirstFault,
)
    requires typed { AreTyped (declared_of known.now) }
    requires params { are_all_types (length known.now.hierarchy.now) params.now ≡ true }
    ensures { faults.new ≡ least faults.old (types.argument_faults (declared_of known.now) params.now args.now) }
{
    for (at, spot) in args.iter().enumerate() {
        let Some(allowed) = params.get(at) else {
            return;
        };
        judge_argument(alloc, known, allowed.as_slice(), spot, faults);
    }
}

/// A predicate or a function with its arguments, by the table of its names and the list of what they are declared with.
fn judge_call(
    alloc: Global,
    known: &Known,
    table: &NameTable,
    signatures: &[Signature],
    name: &Spot,
    args: &[Spot],
    faults: &mut FirstFault,
)
    requires typed { AreTyped (declared_of known.now) }
    requires signatures { list_all (λ s. are_all_types (length known.now.hierarchy.now) s.params) signatures.now ≡ true }
    ensures { faults.new ≡ least faults.old (types.call_faults (declared_of known.now) table.now signatures.now name.now args.now) }
{
    let Some(number) = table.find(name.text.as_str()) else {
        return;
    };
    let Some(signature) = signatures.get(number as usize) else {
        return;
    };
    let params = signature.params.as_slice();
    if args.len() != params.len() {
        note_arity(alloc, name.place, faults);
    }
    judge_arguments(alloc, known, params, args, faults);
}

pub(crate) fn judge_atom(
    alloc: Global,
    known: &Known,
    name: &Spot,
    args: &[Spot],
    faults: &mut FirstFault,
)
    requires { AreTyped (declared_of known.now) }
    ensures { faults.new ≡ least faults.old (types.atom_faults (declared_of known.now) name.now args.now) }
{
    judge_call(
        alloc,
        known,
        known.names.preds,
        known.preds,
        name,
        args,
        faults,
    );
}

pub(crate) fn judge_function(
    alloc: Global,
    known: &Known,
    name: &Spot,
    args: &[Spot],
    faults: &mut FirstFault,
)
    requires { AreTyped (declared_of known.now) }
    ensures { faults.new ≡ least faults.old (types.function_faults (declared_of known.now) name.now args.now) }
{
    judge_call(
        alloc,
        known,
        known.names.funcs,
        known.funcs,
        name,
        args,
        faults,
    );
}
