//! Each line is made in a text of its own, and then added in one piece or not at all.
ghost use Rattle.std.specs.Prelude.{◌≡◌, true, ◌++◌, OnOk, OnErr};
ghost use Rattle.std.specs.Fmt.{decimal};
ghost use Rattle.plan_form.specs.Printed.{is_call_of};
ghost use Rattle.pattern_text.specs.Lines as lines;

use itoa::Buffer;
use operation_text::write_operation;
use pddl_task::{Instance, Task};
use plan_form::write_call;
use relaxed::{RangePart, RangeWide};
use std::alloc::AllocError;

fn put_number(n: u64, into: &mut Vec<u8>) -> Result<(), AllocError>
    ensures { OnOk result (into.new.items ≡ into.old.items ++ decimal n) }
{
    let mut buffer = Buffer::new();
    into.extend_from_slice(buffer.format(n).as_bytes())
}

fn repetition_word(rolls: bool) -> &'static [u8]
    ensures { result.now ≡ lines.repetition_word rolls }
{
    if rolls { b" roll " } else { b" once " }
}

fn part_word(part: RangePart) -> &'static [u8]
    ensures { result.now ≡ lines.part_word part }
{
    match part {
        RangePart::Cond(_) => b" cond ",
        RangePart::Set(_) => b" set ",
    }
}

fn part_place(part: RangePart) -> u32
    ensures { result ≡ lines.part_place part }
{
    match part {
        RangePart::Cond(place) => place,
        RangePart::Set(place) => place,
    }
}

fn put_header(places: u64, into: &mut Vec<u8>) -> Result<(), AllocError>
    ensures { OnOk result (into.new.items ≡ into.old.items ++ lines.header_line places) }
{
    into.extend_from_slice(b"pattern ")?;
    put_number(places, into)?;
    into.extend_from_slice(b"\n")
}

fn put_place(
    task: &Task,
    number: u64,
    rolls: bool,
    by: &Instance,
    into: &mut Vec<u8>,
) -> Result<(), AllocError>
    requires { is_call_of task.now by.now ≡ true }
    ensures { OnOk result (into.new.items ≡ into.old.items ++ lines.place_line task.now number rolls by.now) }
{
    put_number(number, into)?;
    into.extend_from_slice(repetition_word(rolls))?;
    write_call(task, by, into)?;
    into.extend_from_slice(b"\n")
}

fn put_passing(range: &RangeWide, into: &mut Vec<u8>) -> Result<(), AllocError>
    ensures { OnOk result (into.new.items ≡ into.old.items ++ lines.passing_text range.now) }
{
    into.extend_from_slice(part_word(range.part))?;
    put_number(u64::from(part_place(range.part)), into)?;
    into.extend_from_slice(b" ")?;
    write_operation(&range.wide, into)
}

fn put_range(
    task: &Task,
    by: &Instance,
    range: &RangeWide,
    into: &mut Vec<u8>,
) -> Result<(), AllocError>
    requires { is_call_of task.now by.now ≡ true }
    ensures { OnOk result (into.new.items ≡ into.old.items ++ lines.range_line task.now by.now range.now) }
{
    into.extend_from_slice(b"unknown wide range ")?;
    put_number(range.layer, into)?;
    into.extend_from_slice(b" ")?;
    write_call(task, by, into)?;
    put_passing(range, into)?;
    into.extend_from_slice(b"\n")
}

/// Adds the first line of a pattern, with how many places it has.
pub fn write_header(places: u64, into: &mut Vec<u8>) -> Result<(), AllocError>
    ensures ok { OnOk result (into.new.items ≡ into.old.items ++ lines.header_line places) }
    ensures err { OnErr result (into.new.items ≡ into.old.items) }
{
    let mut line = Vec::new(*into.allocator());
    put_header(places, &mut line)?;
    into.extend_from_slice(line.as_slice())
}

/// Adds the line of the place with this number, whose instance may be repeated at once or not.
pub fn write_place(
    task: &Task,
    number: u64,
    rolls: bool,
    by: &Instance,
    into: &mut Vec<u8>,
) -> Result<(), AllocError>
    requires { is_call_of task.now by.now ≡ true }
    ensures ok { OnOk result (into.new.items ≡ into.old.items ++ lines.place_line task.now number rolls by.now) }
    ensures err { OnErr result (into.new.items ≡ into.old.items) }
{
    let mut line = Vec::new(*into.allocator());
    put_place(task, number, rolls, by, &mut line)?;
    into.extend_from_slice(line.as_slice())
}

/// Adds the line of an operation that passes in taking a range, with the instance of its action.
pub fn write_range(
    task: &Task,
    by: &Instance,
    range: &RangeWide,
    into: &mut Vec<u8>,
) -> Result<(), AllocError>
    requires { is_call_of task.now by.now ≡ true }
    ensures ok { OnOk result (into.new.items ≡ into.old.items ++ lines.range_line task.now by.now range.now) }
    ensures err { OnErr result (into.new.items ≡ into.old.items) }
{
    let mut line = Vec::new(*into.allocator());
    put_range(task, by, range, &mut line)?;
    into.extend_from_slice(line.as_slice())
}
