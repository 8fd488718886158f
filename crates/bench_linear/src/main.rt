//! Times sums and values of linear expressions with 1, 10, 100 and 1,000 terms. Standard output has a checksum of the
//! results for each, the same as that of the C program in `bench/linear`; standard error has the times in nanoseconds. The
//! one argument is how many terms are gone through at each length.
#![tactic(auto)]

ghost use Rattle.std.specs.Prelude.{◌≢◌};

mod inputs;

use anyhow::{Context, Result};
use frac128::Frac;
use inputs::{make_expression, make_point};
use lin::Lin;
use std::env;
use std::rt::{Clock, Env};
use std::time::Instant;

fn main(rt: HostRuntime) -> Result<()> {
    let terms = read_terms(&rt)?;
    time_length(&rt, 1, terms)?;
    time_length(&rt, 10, terms)?;
    time_length(&rt, 100, terms)?;
    time_length(&rt, 1000, terms)
}

fn read_terms(rt: &(impl Env + Alloc)) -> Result<u64> {
    let mut args = env::args(rt)?;
    let _program = args.next();
    let terms = args.next().context("the number of terms is missing")?;
    terms.as_str().parse::<u64>().context("the number of terms")
}

fn time_length<R: AllocGlobal + Clock + Print + Eprint>(
    rt: &R,
    length: u64,
    terms: u64,
) -> Result<()>
    requires { length ≢ 0 }
{
    let x = make_expression(rt.alloc(), length, 2)?;
    let y = make_expression(rt.alloc(), length, 3)?;
    let rounds = terms / length;
    time_sums(rt, length, rounds, &x, &y)?;
    let point = make_point(rt.alloc(), length.wrapping_mul(2))?;
    time_values(rt, length, rounds, &x, point.as_slice())
}

fn time_sums<R: Clock + Print + Eprint>(
    rt: &R,
    length: u64,
    rounds: u64,
    x: &Lin,
    y: &Lin,
) -> Result<()> {
    let start = Instant::now(rt)?;
    let mut sum = 0u64;
    for _ in 0..rounds {
        sum = sum.wrapping_mul(31).wrapping_add(glance(&x.add(y)?));
    }
    let time = start.elapsed(rt)?;
    println!(rt; "add {length} {sum} {}", digest(&x.add(y)?))?;
    eprintln!(rt; "add {length} {}", time.as_nanos())?;
    Ok(())
}

fn time_values<R: Clock + Print + Eprint>(
    rt: &R,
    length: u64,
    rounds: u64,
    x: &Lin,
    point: &[Frac],
) -> Result<()> {
    if !x.is_below(point.len() as u64) {
        return Ok(());
    }
    let start = Instant::now(rt)?;
    let mut sum = 0u64;
    for _ in 0..rounds {
        sum = sum
            .wrapping_mul(31)
            .wrapping_add(low_halves(&x.value(point)?));
    }
    let time = start.elapsed(rt)?;
    println!(rt; "value {length} {sum}")?;
    eprintln!(rt; "value {length} {}", time.as_nanos())?;
    Ok(())
}

// What is cheap to read, so that no sum can be left out.
fn glance(lin: &Lin) -> u64 {
    low_halves(&lin.constant()) ^ (lin.terms() as u64)
}

fn digest(lin: &Lin) -> u64 {
    let mut sum = glance(lin);
    for i in 0..lin.terms() {
        let (variable, coefficient) = lin.term(i);
        sum = sum
            .wrapping_mul(31)
            .wrapping_add(variable ^ low_halves(&coefficient));
    }
    sum
}

fn low_halves(value: &Frac) -> u64 {
    low_half(value.num().unsigned_abs()) ^ low_half(value.den().unsigned_abs())
}

fn low_half(n: u128) -> u64 {
    (n & 0xffff_ffff_ffff_ffff) as u64
}
