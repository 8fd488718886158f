//! Words of a line: numbers, literals, fractions. A list of words has a space in front of each.
ghost use Rattle.std.specs.Prelude.{◌≡◌, ◌++◌, map, OnOk};
ghost use Rattle.frac128.specs.Text.{text_of};
ghost use Rattle.cert_form.specs.Spelling.{number_text, literal_text, truth_digit, each};

use formula::Lit;
use frac128::Frac;
use itoa::Buffer;
use std::alloc::AllocError;

/// A number from 0, shown from 1.
pub(crate) fn put_number(number: u64, into: &mut Vec<u8>) -> Result<(), AllocError>
    ensures { OnOk result (into.new.items ≡ into.old.items ++ number_text number) }
{
    let mut buffer = Buffer::new();
    into.extend_from_slice(buffer.format(u128::from(number) + 1).as_bytes())
}

pub(crate) fn put_literal(lit: Lit, into: &mut Vec<u8>) -> Result<(), AllocError>
    ensures { OnOk result (into.new.items ≡ into.old.items ++ literal_text lit) }
{
    if !lit.pos {
        into.push(b'-')?;
    }
    put_number(lit.boolean, into)
}

pub(crate) fn put_numbers(numbers: &[u64], into: &mut Vec<u8>) -> Result<(), AllocError>
    ensures { OnOk result (into.new.items ≡ into.old.items ++ each number_text numbers.now) }
{
    for number in numbers {
        into.push(b' ')?;
        put_number(*number, into)?;
    }
    Ok(())
}

pub(crate) fn put_literals(lits: &[Lit], into: &mut Vec<u8>) -> Result<(), AllocError>
    ensures { OnOk result (into.new.items ≡ into.old.items ++ each literal_text lits.now) }
{
    for lit in lits {
        into.push(b' ')?;
        put_literal(*lit, into)?;
    }
    Ok(())
}

pub(crate) fn put_fractions(fractions: &[Frac], into: &mut Vec<u8>) -> Result<(), AllocError>
    ensures { OnOk result (into.new.items ≡ into.old.items ++ each text_of fractions.now) }
{
    for fraction in fractions {
        into.push(b' ')?;
        fraction.to_text(into)?;
    }
    Ok(())
}

/// A digit for each truth.
pub(crate) fn put_truths(truths: &[bool], into: &mut Vec<u8>) -> Result<(), AllocError>
    ensures { OnOk result (into.new.items ≡ into.old.items ++ map truth_digit truths.now) }
{
    for truth in truths {
        into.push(if *truth { b'1' } else { b'0' })?;
    }
    Ok(())
}
