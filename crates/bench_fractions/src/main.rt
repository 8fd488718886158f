//! Times the operations of `frac128` on whole numbers, small fractions and fractions of 60 bits. Standard output has a
//! checksum of the results for each, the same as that of the C program in `bench/fractions`; standard error has the
//! times in nanoseconds. The one argument is how often the thousand pairs of each kind are gone through.
#![tactic(auto)]

ghost use Rattle.std.specs.Prelude.{◌≢◌, pos};

mod inputs;

use anyhow::{Context, Result};
use frac128::{Frac, Wide};
use inputs::{Kind, Pair, make_pairs};
use std::cmp::Ordering;
use std::env;
use std::rt::{Clock, Env};
use std::time::Instant;

fn main(rt: HostRuntime) -> Result<()> {
    let rounds = read_rounds(&rt)?;
    time_kind(&rt, "whole", Kind::Whole, rounds)?;
    time_kind(&rt, "small", Kind::Small, rounds)?;
    time_kind(&rt, "sixty", Kind::Sixty, rounds)
}

fn read_rounds(rt: &(impl Env + Alloc)) -> Result<u64> {
    let mut args = env::args(rt)?;
    let _program = args.next();
    let rounds = args.next().context("the number of rounds is missing")?;
    rounds
        .as_str()
        .parse::<u64>()
        .context("the number of rounds")
}

fn time_kind<R: AllocGlobal + Clock + Print + Eprint>(
    rt: &R,
    name: &str,
    kind: Kind,
    rounds: u64,
) -> Result<()> {
    let pairs = make_pairs(rt.alloc(), kind)?;
    let pairs = pairs.as_slice();
    time_operation(
        rt,
        name,
        "add",
        rounds,
        pairs,
        |pair| digest(pair.x.add(&pair.y)),
    )?;
    time_operation(
        rt,
        name,
        "sub",
        rounds,
        pairs,
        |pair| digest(pair.x.sub(&pair.y)),
    )?;
    time_operation(
        rt,
        name,
        "mul",
        rounds,
        pairs,
        |pair| digest(pair.x.mul(&pair.y)),
    )?;
    time_operation(rt, name, "div", rounds, pairs, |pair| quotient(pair))?;
    time_operation(rt, name, "cmp", rounds, pairs, |pair| order(pair))
}

fn time_operation<R: Clock + Print + Eprint, F: Fn(&Pair) -> u64 + Drop>(
    rt: &R,
    kind: &str,
    operation: &str,
    rounds: u64,
    pairs: &[Pair],
    step: F,
) -> Result<()>
    requires { F.IsAlwaysCallable step }
{
    let start = Instant::now(rt)?;
    let mut sum = 0u64;
    for _ in 0..rounds {
        for pair in pairs {
            sum = sum.wrapping_mul(31).wrapping_add(step(pair));
        }
    }
    let time = start.elapsed(rt)?;
    println!(rt; "{kind} {operation} {sum}")?;
    eprintln!(rt; "{kind} {operation} {}", time.as_nanos())?;
    Ok(())
}

fn order(pair: &Pair) -> u64 {
    match pair.x.cmp(&pair.y) {
        Ordering::Less => 0,
        Ordering::Equal => 1,
        Ordering::Greater => 2,
    }
}

fn quotient(pair: &Pair) -> u64 {
    if pair.y.num() == 0 {
        return 0;
    }
    digest(pair.x.div(&pair.y))
}

// The low halves of both numbers, so that no result can be left out.
fn digest(answer: std::result::Result<Frac, Wide>) -> u64 {
    match answer {
        Ok(value) => low_half(value.num().unsigned_abs()) ^ low_half(value.den().unsigned_abs()),
        Err(_) => 1,
    }
}

fn low_half(n: u128) -> u64 {
    (n & 0xffff_ffff_ffff_ffff) as u64
}
