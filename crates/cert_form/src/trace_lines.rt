//! The end of a block where a check of the simplex got stuck. Begin with `write_trace`.
ghost use Rattle.std.specs.Prelude.{◌≡◌, ◌++◌, codes, OnOk, OnErr};
ghost use Rattle.cert_form.specs.Spelling.{swap_text, each, passing_text, site_text, pivoting_lines, evidence_lines, trace_lines};

use crate::step_lines::put_lemma;
use crate::words::{put_literals, put_number, put_numbers};
use frac128::Wide;
use operation_text::write_operation;
use std::alloc::AllocError;
use theory_law::{Site, Swap, Trace};

fn put_operation(wide: &Option<Wide>, into: &mut Vec<u8>) -> Result<(), AllocError>
    ensures { OnOk result (into.new.items ≡ into.old.items ++ passing_text wide.now) }
{
    let Some(wide) = wide else {
        return Ok(());
    };
    into.extend_from_slice(b" ")?;
    write_operation(wide, into)
}

fn site_words(site: Site) -> &'static [u8]
    ensures { result.now ≡ site_text site }
{
    match site {
        Site::Pivots => b"pivots",
        Site::Pivot => b"wide pivot",
        Site::Value => b"wide value",
        Site::Point => b"wide point",
        Site::Farkas => b"wide farkas",
    }
}

fn put_swap(swap: Swap, into: &mut Vec<u8>) -> Result<(), AllocError>
    ensures { OnOk result (into.new.items ≡ into.old.items ++ swap_text swap) }
{
    put_number(swap.leave, into)?;
    into.extend_from_slice(b":")?;
    put_number(swap.enter, into)
}

fn put_swaps(swaps: &[Swap], into: &mut Vec<u8>) -> Result<(), AllocError>
    ensures { OnOk result (into.new.items ≡ into.old.items ++ each swap_text swaps.now) }
{
    for swap in swaps {
        into.push(b' ')?;
        put_swap(*swap, into)?;
    }
    Ok(())
}

fn put_pivoting(trace: &Trace, into: &mut Vec<u8>) -> Result<(), AllocError>
    ensures { OnOk result (into.new.items ≡ into.old.items ++ pivoting_lines trace.now) }
{
    into.extend_from_slice(b"basis")?;
    put_numbers(trace.basis.as_slice(), into)?;
    into.extend_from_slice(b"\nlits")?;
    put_literals(trace.lits.as_slice(), into)?;
    into.extend_from_slice(b"\npivots")?;
    put_swaps(trace.pivots.as_slice(), into)?;
    into.push(b'\n')?;
    Ok(())
}

fn put_evidence(trace: &Trace, into: &mut Vec<u8>) -> Result<(), AllocError>
    ensures { OnOk result (into.new.items ≡ into.old.items ++ evidence_lines trace.now.site trace.now) }
{
    match trace.site {
        Site::Pivots | Site::Pivot | Site::Value | Site::Point => put_pivoting(trace, into),
        Site::Farkas => match &trace.lemma {
            Some(lemma) => put_lemma(&lemma.clause, &lemma.coefs, into),
            None => Ok(()),
        },
    }
}

fn put_trace(trace: &Trace, into: &mut Vec<u8>) -> Result<(), AllocError>
    ensures { OnOk result (into.new.items ≡ into.old.items ++ trace_lines trace.now) }
{
    into.extend_from_slice(b"unknown ")?;
    into.extend_from_slice(site_words(trace.site))?;
    put_operation(&trace.wide, into)?;
    into.push(b'\n')?;
    put_evidence(trace, into)
}

/// Adds the `unknown` line of the site where a check got stuck, and under it the trace, or where a lemma's sum passes 128
/// bits the lemma.
pub fn write_trace(t: &Trace, into: &mut Vec<u8>) -> Result<(), AllocError>
    ensures ok { OnOk result (into.new.items ≡ into.old.items ++ trace_lines t.now) }
    ensures err { OnErr result (into.new.items ≡ into.old.items) }
{
    let mut lines = Vec::new(*into.allocator());
    put_trace(t, &mut lines)?;
    into.extend_from_slice(lines.as_slice())
}
