//! Want of memory: a run over files and output in memory, for `--fail-alloc` to fail each of its allocations in turn.
use crate::program::plan_run;
use patty_io::{MemShelf, MemSink, NamedBytes};
use std::alloc::{AllocError, Global};

const DOMAIN: &str = "(define (domain d) (:predicates (g)) (:action a :effect (g)))";

const PROBLEM: &str = "(define (problem p) (:domain d) (:init (g)) (:goal (g)))";

const LINES: &[u8] = b"pattern 1\n1 once (a)\nblock 0\nplan 0\nend\n";

fn file(alloc: Global, name: &str, text: &str) -> Result<NamedBytes, AllocError> {
    Ok(NamedBytes {
        name: String::from_str(alloc, name)?,
        bytes: Vec::from_slice(alloc, text.as_bytes())?,
    })
}

fn words(alloc: Global) -> Result<Vec<String>, AllocError> {
    let mut words = Vec::new(alloc);
    for word in ["d", "p", "--max-n", "0"] {
        words.push(String::from_str(alloc, word)?)?;
    }
    Ok(words)
}

/// The status and the output of a run.
fn outcome(alloc: Global) -> Result<(u8, Vec<u8>), AllocError> {
    let words = words(alloc)?;
    let mut files = Vec::new(alloc);
    files.push(file(alloc, "d", DOMAIN)?)?;
    files.push(file(alloc, "p", PROBLEM)?)?;
    let mut shelf = MemShelf::new(alloc, files, Vec::new(alloc));
    let mut sink = MemSink::new(alloc, Vec::new(alloc));
    let status = plan_run(alloc, &words, &mut shelf, &mut sink);
    Ok((status.code, Vec::from_slice(alloc, sink.written())?))
}

/// Where an allocation fails, a run either does as without, or ends with the status 7 and a front of its lines.
#[test]
fn want_of_memory(rt: HostRuntime) {
    let Ok((status, output)) = outcome(rt.alloc()) else {
        return;
    };
    if status == 7 {
        assert!(rt; LINES.starts_with(output.as_slice()));
    } else {
        assert_eq!(rt; status, 0);
        assert_eq!(rt; output.as_slice(), LINES);
    }
}
