//! `read_plan`: the plan that a text spells, or its first fault.
ghost use Rattle.std.specs.Prelude.{◌≡◌, ◌==◌, ◌≤◌, None, length, IfOk};
ghost use Rattle.std.specs.List.{position_or_len};
ghost use Rattle.pddl_form.specs.Reading.{IsRead};
ghost use Rattle.plan_text.specs.PlanText.{names_of, plan_judged, ReadsPlan};
ghost use Rattle.plan_form.specs.Printed.{IsPlanOf};
ghost use Rattle.plan_text.specs.inside.Finishing.{IsOutcome, Finishes};
ghost use Rattle.plan_text.specs.inside.Tables.{names_in};

use crate::line::Reading;
use crate::names::NameTables;
use crate::refusal::PlanRefusal;
use pddl_form::FirstFault;
use pddl_task::Task;
use plan_form::Plan;
use sqlite_items::Items;
use std::alloc::{AllocError, Global};

/// How many bytes there are before a line feed, or in all.
fn line_len(bytes: &[u8]) -> usize
    ensures value { result ≡ position_or_len (λ b. b == 10) bytes.now }
    ensures within { result ≤ length bytes.now }
{
    bytes.iter().take_while(|byte| **byte != b'\n').count()
}

/// Each line of a text in turn.
fn read_lines(alloc: Global, tables: &NameTables, bytes: &[u8]) -> Result<Reading, AllocError>
    requires { length bytes.now ≤ 67108864 }
    ensures { IfOk result (λ r. IsRead (plan_judged (names_in tables.now) bytes.now) None r.faults r.found) }
{
    let mut reading = Reading {
        found: Some(Items::new(alloc)),
        faults: FirstFault::new(),
    };
    let mut at = 0;
    'lines: loop {
        let end = at + line_len(&bytes[at..]);
        reading.read_line(alloc, tables, bytes, at, end)?;
        if end >= bytes.len() {
            return Ok(reading);
        }
        at = end + 1;
    }
}

fn finish(reading: Reading) -> Result<Plan, PlanRefusal>
    requires { IsOutcome reading.found reading.faults }
    ensures { Finishes reading.found reading.faults result }
{
    let Reading { found, faults } = reading;
    if let Some(fault) = faults.into_first() {
        return Err(PlanRefusal::Fault {
            kind: fault.kind,
            place: fault.place,
        });
    }
    match found {
        Some(parts) => Ok(Plan::new(parts)),
        None => unreachable!(),
    }
}

/// Reads a plan of a task: its parts, in the order of their lines, with the numbers of their names. For tables of more
/// actions than a number of 32 bits counts there is no memory.
pub fn read_plan(alloc: Global, task: &Task, bytes: &[u8]) -> Result<Plan, PlanRefusal>
    requires { length bytes.now ≤ 67108864 }
    ensures reads { ReadsPlan (names_of task.now) bytes.now result }
    ensures numbered { IfOk result (IsPlanOf task.now) }
{
    if task.actions().len() > u32::MAX as usize {
        return Err(PlanRefusal::Memory);
    }
    let tables = NameTables::new(alloc, task)?;
    let reading = read_lines(alloc, &tables, bytes)?;
    finish(reading)
}
