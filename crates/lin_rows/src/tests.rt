//! A row has a call, its expression, its argument and its answer. An expression is its terms, each a coefficient and its
//! variable as `1/2@0`, and its constant, with `+` between them.
use crate::rows::ROWS;
use frac128::{Frac, Op, Wide};
use lin::{Lin, LinFail};
use std::alloc::{AllocError, Global};
use std::process::Abort;
use std::test::Fail;

#[test]
fn calls_at_the_edges(rt: HostRuntime) -> Result<(), Fail> {
    for line in ROWS.lines() {
        let mut words = line.split_whitespace();
        let call = words.next().unwrap_or("");
        let lin = read_lin(&rt, rt.alloc(), words.next().unwrap_or(""))?;
        let argument = words.next().unwrap_or("");
        let answer = answer(&rt, rt.alloc(), call, &lin, argument)?;
        assert_eq!(rt;
            answer.as_slice(),
            words.next().unwrap_or("").as_bytes(),
            "{line}"
        );
    }
    Ok(())
}

fn answer(
    rt: &impl Abort,
    alloc: Global,
    call: &str,
    lin: &Lin,
    argument: &str,
) -> Result<Vec<u8>, Fail> {
    match call {
        "add" => shown(alloc, lin.add(&read_lin(rt, alloc, argument)?)),
        "scale" => shown(alloc, lin.scale(&read(rt, argument))),
        "div" => {
            let by = read(rt, argument);
            assert!(rt; by.num() != 0);
            shown(alloc, lin.div(&by))
        }
        "neg" => Ok(written(alloc, &lin.neg()?)?),
        "subst" => {
            let of = read_lins(rt, alloc, argument)?;
            assert!(rt; lin.is_below(of.len() as u64));
            shown(alloc, lin.subst(of.as_slice()))
        }
        "value" => {
            let at = read_values(rt, alloc, argument)?;
            assert!(rt; lin.is_below(at.len() as u64));
            shown_value(alloc, lin.value(at.as_slice()))
        }
        _ => {
            let at = read_values(rt, alloc, argument)?;
            assert!(rt; lin.is_below(at.len() as u64));
            shown_value(alloc, lin.neg_value(at.as_slice()))
        }
    }
}

fn read(rt: &impl Abort, text: &str) -> Frac {
    let value = Frac::from_text(text.as_bytes());
    assert!(rt; value.is_ok(), "{text}");
    value.unwrap()
}

fn read_part(rt: &impl Abort, alloc: Global, part: &str) -> Result<Lin, Fail> {
    let Some((coefficient, variable)) = part.split_once('@') else {
        return Ok(Lin::fixed(alloc, read(rt, part)));
    };
    let variable = variable.parse::<u64>().ok().ok_or("a variable")?;
    Ok(Lin::var(alloc, variable)?.scale(&read(rt, coefficient))?)
}

fn read_lin(rt: &impl Abort, alloc: Global, text: &str) -> Result<Lin, Fail> {
    let mut lin = Lin::fixed(alloc, Frac::ratio(0, 1));
    for part in text.split('+') {
        lin = lin.add(&read_part(rt, alloc, part)?)?;
    }
    Ok(lin)
}

fn read_lins(rt: &impl Abort, alloc: Global, text: &str) -> Result<Vec<Lin>, Fail> {
    let mut lins = Vec::new(alloc);
    for part in text.split('|') {
        lins.push(read_lin(rt, alloc, part)?)?;
    }
    Ok(lins)
}

fn read_values(rt: &impl Abort, alloc: Global, text: &str) -> Result<Vec<Frac>, Fail> {
    let mut values = Vec::new(alloc);
    for part in text.split('|') {
        values.push(read(rt, part))?;
    }
    Ok(values)
}

fn written(alloc: Global, lin: &Lin) -> Result<Vec<u8>, AllocError> {
    let mut text = Vec::new(alloc);
    for i in 0..lin.terms() {
        let (variable, coefficient) = lin.term(i);
        coefficient.to_text(&mut text)?;
        text.extend_from_slice(format!(in alloc; "@{variable}+")?.as_bytes())?;
    }
    lin.constant().to_text(&mut text)?;
    Ok(text)
}

fn shown(alloc: Global, answer: Result<Lin, LinFail>) -> Result<Vec<u8>, Fail> {
    match answer {
        Ok(lin) => Ok(written(alloc, &lin)?),
        Err(LinFail::Wide(wide)) => Ok(refused(alloc, &wide)?),
        Err(LinFail::Memory) => Err(Fail::from("out of memory")),
    }
}

fn shown_value(alloc: Global, answer: Result<Frac, Wide>) -> Result<Vec<u8>, Fail> {
    match answer {
        Ok(value) => {
            let mut text = Vec::new(alloc);
            value.to_text(&mut text)?;
            Ok(text)
        }
        Err(wide) => Ok(refused(alloc, &wide)?),
    }
}

fn refused(alloc: Global, wide: &Wide) -> Result<Vec<u8>, AllocError> {
    let op: &[u8] = match wide.op {
        Op::Add => b"wide:add:",
        Op::Sub => b"wide:sub:",
        Op::Mul => b"wide:mul:",
        Op::Div => b"wide:div:",
    };
    let mut text = Vec::from_slice(alloc, op)?;
    wide.x.to_text(&mut text)?;
    text.extend_from_slice(b":")?;
    wide.y.to_text(&mut text)?;
    Ok(text)
}
