//! The lines of a log's steps. Begin with `write_step`.
//!
//! A line is made in a text of its own, and then added in one piece or not at all.
ghost use Rattle.std.specs.Prelude.{◌≡◌, ◌++◌, codes, OnOk, OnErr};
ghost use Rattle.cert_form.specs.Spelling.{split_words, point_words, lemma_line, step_line};
ghost use Rattle.theory_law.specs.declared.log.LogStep.TheVariants as step;

use crate::words::{put_fractions, put_literals, put_number, put_numbers, put_truths};
use formula::{Clause, Point};
use frac128::Frac;
use std::alloc::AllocError;
use theory_law::{Coefs, LogStep};

pub(crate) fn put_lemma(clause: &Clause, why: &Coefs, into: &mut Vec<u8>) -> Result<(), AllocError>
    ensures { OnOk result (into.new.items ≡ into.old.items ++ lemma_line clause.now why.now) }
{
    into.extend_from_slice(b"lemma")?;
    put_literals(clause.lits(), into)?;
    into.extend_from_slice(b" ;")?;
    put_fractions(why.list.as_slice(), into)?;
    into.push(b'\n')?;
    Ok(())
}

fn put_learn(clause: &Clause, hints: &[u64], into: &mut Vec<u8>) -> Result<(), AllocError>
    ensures { OnOk result (into.new.items ≡ into.old.items ++ step_line (step.Learn clause.now hints.now)) }
{
    into.extend_from_slice(b"learn")?;
    put_literals(clause.lits(), into)?;
    into.extend_from_slice(b" ;")?;
    put_numbers(hints, into)?;
    into.push(b'\n')?;
    Ok(())
}

fn put_split(boolean: u64, var: u64, k: &Frac, into: &mut Vec<u8>) -> Result<(), AllocError>
    ensures { OnOk result (into.new.items ≡ into.old.items ++ split_words boolean var k.now) }
{
    into.extend_from_slice(b"split ")?;
    put_number(boolean, into)?;
    into.extend_from_slice(b" ")?;
    put_number(var, into)?;
    into.extend_from_slice(b" ")?;
    k.to_text(into)
}

fn put_point(point: &Point, into: &mut Vec<u8>) -> Result<(), AllocError>
    ensures { OnOk result (into.new.items ≡ into.old.items ++ point_words point.now) }
{
    into.extend_from_slice(b" ;")?;
    put_fractions(point.values.as_slice(), into)?;
    into.extend_from_slice(b" ; ")?;
    put_truths(point.truth.as_slice(), into)
}

fn put_step(step: &LogStep<Coefs>, into: &mut Vec<u8>) -> Result<(), AllocError>
    ensures { OnOk result (into.new.items ≡ into.old.items ++ step_line step.now) }
{
    match step {
        LogStep::Lemma { clause, why } => put_lemma(clause, why, into),
        LogStep::Learn { clause, hints } => put_learn(clause, hints.as_slice(), into),
        LogStep::Split {
            boolean,
            var,
            k,
            point,
        } => {
            put_split(*boolean, *var, k, into)?;
            put_point(point, into)?;
            into.push(b'\n')?;
            Ok(())
        }
    }
}

/// Adds the line of a step.
pub fn write_step(s: &LogStep<Coefs>, into: &mut Vec<u8>) -> Result<(), AllocError>
    ensures ok { OnOk result (into.new.items ≡ into.old.items ++ step_line s.now) }
    ensures err { OnErr result (into.new.items ≡ into.old.items) }
{
    let mut line = Vec::new(*into.allocator());
    put_step(s, &mut line)?;
    into.extend_from_slice(line.as_slice())
}
