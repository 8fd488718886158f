//! Faults of a tree's shape, and the one that counts: that of the least place, and at one place that of the lower kind.
//! Begin with `FirstFault`, which each reader tells its faults.
ghost use Rattle.std.specs.Prelude.{◌≡◌, ◌-◌, [], Some, None, OnOk};
ghost use Rattle.pddl_form.specs.Faults.{is_before, first_with, shape, feature, not_a_number};
ghost use Rattle.pddl_form.specs.Concluded.{Concludes, HasOutcome};

use sexpr::{Source, Text, TextFault, TextRefusal};
use std::alloc::{AllocError, Global};
use std::marker::Model;

/// A fault of a text by its kind: 4 (the shape of a tree), 5 (a feature that isn't read, with its word) and 10 (no number)
/// are those of the shape; the passes behind note theirs in the same form.
#[derive(Drop)]
pub struct Fault {
    pub kind: u8,
    pub place: u32,
    pub word: Text,
}

fn comes_before(f: &Fault, g: &Fault) -> bool
    ensures { result ≡ is_before f.now g.now }
{
    f.place < g.place || f.place == g.place && f.kind < g.kind
}

/// The first fault so far, where there is one.
#[derive(Drop)]
pub struct FirstFault {
    first: Option<Fault>,
}

impl Model for FirstFault {
    ghost use Rattle.std.specs.Prelude.{Option};
    ghost use Rattle.pddl_form.specs.declared.fault.Fault.{Fault};

    ghost Value = { Option Fault };

    ghost view = { λ f. f.first };
}

impl FirstFault {
    /// No fault yet.
    pub fn new() -> FirstFault
        ensures { result ≡ None }
    {
        FirstFault { first: None }
    }

    /// The first of those that were noted.
    pub fn into_first(self) -> Option<Fault>
        ensures { result ≡ self }
    {
        let FirstFault { first } = self;
        first
    }

    /// Keeps the first of what it has and this one.
    pub fn note(&mut self, fault: Fault)
        ensures { self.new ≡ Some (first_with self.old fault) }
    {
        let is_first = match &self.first {
            Some(first) => comes_before(&fault, first),
            None => true,
        };
        if is_first {
            self.first = Some(fault);
        }
    }

    /// A tree at this place isn't of the form that is demanded there.
    pub fn misshapen(&mut self, alloc: Global, place: u32)
        ensures { self.new ≡ Some (first_with self.old (shape place)) }
    {
        self.note(Fault {
            kind: 4,
            place,
            word: Text::from_string(String::new(alloc)),
        });
    }

    /// A list that ends before this place lacks a tree.
    pub fn lacking(&mut self, alloc: Global, end: u32)
        ensures { self.new ≡ Some (first_with self.old (shape (end - 1))) }
    {
        self.misshapen(alloc, end.saturating_sub(1));
    }

    /// A word stands for a feature that isn't read.
    pub fn feature(&mut self, alloc: Global, place: u32, word: &str) -> Result<(), AllocError>
        ensures { OnOk result (self.new ≡ Some (first_with self.old (feature place word.now))) }
    {
        let word = Text::from_string(String::from_str(alloc, word)?);
        self.note(Fault {
            kind: 5,
            place,
            word,
        });
        Ok(())
    }

    /// A word in the place of a number isn't one.
    pub fn no_number(&mut self, alloc: Global, place: u32)
        ensures { self.new ≡ Some (first_with self.old (not_a_number place)) }
    {
        self.note(Fault {
            kind: 10,
            place,
            word: Text::from_string(String::new(alloc)),
        });
    }
}

/// What a whole text's reader answers: the syntax where there is no fault, and else the first fault.
pub fn conclude<T: Drop>(
    file: Source,
    made: Option<T>,
    faults: FirstFault,
) -> Result<T, TextRefusal>
    requires { HasOutcome made faults }
    ensures { Concludes file made faults result }
{
    match (faults.into_first(), made) {
        (Some(first), _) => {
            let Fault { kind, place, word } = first;
            Err(TextRefusal::Fault(TextFault {
                file,
                kind,
                place,
                word,
            }))
        }
        (None, Some(made)) => Ok(made),
        (None, None) => unreachable!(),
    }
}
