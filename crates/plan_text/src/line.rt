//! A line of a plan's text. Begin with `Reading::read_line`: it adds the line's part to those in front, or notes its
//! faults.
ghost use Rattle.std.specs.Prelude.{◌≡◌, ◌==◌, ◌≤◌, length, not};
ghost use Rattle.std.specs.List.{list_any, prefix_len};
ghost use Rattle.sexpr.specs.Bytes.{class_of};
ghost use Rattle.plan_text.specs.Lines.{is_foreign_class, is_white_class};
ghost use Rattle.plan_text.specs.inside.Steps.{with_first};

use crate::fault::note_malformed;
use crate::names::NameTables;
use crate::part::read_part;
use crate::piece::find_piece;
use pddl_form::{FirstFault, add};
use plan_form::Part;
use sexpr::{Class, class_at};
use sqlite_items::Items;
use std::alloc::{AllocError, Global};

/// How many bytes there are before a comment, or in all.
fn code_len(line: &[u8]) -> usize
    ensures value { result ≡ prefix_len (λ b. not (b == 59)) line.now }
    ensures within { result ≤ length line.now }
{
    line.iter().take_while(|byte| **byte != b';').count()
}

/// How much white space there is in front.
fn white_len(line: &[u8]) -> usize
    ensures value { result ≡ prefix_len (λ b. is_white_class (class_of b)) line.now }
    ensures within { result ≤ length line.now }
{
    line.iter()
        .take_while(|byte| class_at(**byte) == Class::White)
        .count()
}

fn has_foreign(code: &[u8]) -> bool
    ensures { result ≡ list_any (λ b. is_foreign_class (class_of b)) code.now }
{
    code.iter().any(|byte| class_at(*byte) == Class::Foreign)
}

/// Keeps the first of two faults.
fn note_first(faults: &mut FirstFault, more: FirstFault)
    ensures { faults.new ≡ with_first faults.old more }
{
    if let Some(fault) = more.into_first() {
        faults.note(fault);
    }
}

/// What was read of a text so far: the parts, or none as soon as there is a fault, and the first fault.
#[derive(Drop)]
pub(crate) struct Reading {
    pub(crate) found: Option<Items<Part>>,
    pub(crate) faults: FirstFault,
}

impl Reading {
    ghost use Rattle.std.specs.Prelude.{[], drop, OnOk, slice_range};
    ghost use Rattle.sexpr.specs.Tokens.{tokens};
    ghost use Rattle.pddl_form.specs.Judged.{bad};
    ghost use Rattle.plan_text.specs.Lines.{line_at};
    ghost use Rattle.plan_text.specs.PlanText.{malformed, code_judged, line_judged};
    ghost use Rattle.plan_text.specs.inside.Extending.{Extends};
    ghost use Rattle.plan_text.specs.inside.Tables.{names_in};

    /// A line that begins at this place is of no form.
    fn refuse_line(&mut self, alloc: Global, place: u32)
        ensures { Extends (bad (malformed place) []) self.old self.new }
    {
        note_malformed(alloc, place, &mut self.faults);
        self.found = None;
    }

    /// What stands in a line in front of a comment: at `from..` in this front of the text.
    fn read_code(
        &mut self,
        alloc: Global,
        tables: &NameTables,
        text: &[u8],
        from: usize,
        place: u32,
    ) -> Result<(), AllocError>
        requires small { length text.now ≤ 67108864 }
        requires within { from ≤ length text.now }
        ensures { OnOk result (Extends (code_judged (names_in tables.now) place (tokens from (drop from text.now))) self.old self.new) }
    {
        let Some(first) = find_piece(text, from) else {
            return Ok(());
        };
        let mut faults = FirstFault::new();
        match read_part(alloc, tables, text, from, first, &mut faults)? {
            Some(part) => {
                note_first(&mut self.faults, faults);
                add(&mut self.found, part)?;
                Ok(())
            }
            None => {
                self.refuse_line(alloc, place);
                Ok(())
            }
        }
    }

    /// The line at `at..end`.
    pub(crate) fn read_line(
        &mut self,
        alloc: Global,
        tables: &NameTables,
        bytes: &[u8],
        at: usize,
        end: usize,
    ) -> Result<(), AllocError>
        requires small { length bytes.now ≤ 67108864 }
        requires rises { at ≤ end }
        requires within { end ≤ length bytes.now }
        ensures { OnOk result (Extends (line_judged (names_in tables.now) (line_at at (slice_range bytes.now at end))) self.old self.new) }
    {
        let line = &bytes[at..end];
        let place = (at + white_len(line)) as u32;
        let code_end = at + code_len(line);
        if has_foreign(&bytes[at..code_end]) {
            self.refuse_line(alloc, place);
            return Ok(());
        }
        self.read_code(alloc, tables, &bytes[..code_end], at, place)?;
        Ok(())
    }
}
