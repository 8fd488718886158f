//! The adapters over a real file and the standard output, and what no clause says of those in memory.
use crate::{
    DiskShelf, LIMIT, MemShelf, MemSink, NamedBytes, OutSink, Shelf, ShelfFail, Sink, SinkFail,
    SureSink,
};
use std::fs;
use std::test::Fail;

/// A file that is written here is taken, one byte more than the longest is refused, and so is a missing file.
#[test]
fn disk_shelf(rt: HostRuntime) -> Result<(), Fail> {
    let alloc = rt.alloc();
    let mut shelf = DiskShelf::new(&rt, alloc);
    fs::write(&rt, "taken.txt", "(define)\n")?;
    let mut into = Vec::new(alloc);
    assert_eq!(rt; shelf.take("taken.txt", &mut into), Ok(()));
    assert_eq!(rt; into.as_slice(), b"(define)\n".as_slice());
    let long = vec![in alloc; b' '; LIMIT + 2]?;
    fs::write(&rt, "taken.txt", long.as_slice())?;
    let mut into = Vec::new(alloc);
    assert_eq!(rt; shelf.take("taken.txt", &mut into), Err(ShelfFail::Long));
    assert_eq!(rt; into.len(), LIMIT + 1);
    fs::remove_file(&rt, "taken.txt")?;
    let mut into = Vec::new(alloc);
    assert_eq!(rt; shelf.take("taken.txt", &mut into), Err(ShelfFail::Failed));
    Ok(())
}

#[test]
fn out_sink(rt: HostRuntime) {
    let mut out = OutSink::new(&rt);
    assert_eq!(rt; out.put(b"a line\n"), Ok(()));
    assert_eq!(rt; out.put(b""), Ok(()));
}

#[test]
fn sinks_in_memory(rt: HostRuntime) -> Result<(), Fail> {
    let alloc = rt.alloc();
    let mut sink = MemSink::new(alloc, vec![in alloc; 2]?);
    assert_eq!(rt; sink.put(b"a"), Ok(()));
    assert_eq!(rt; sink.put(b"b"), Err(SinkFail::Failed));
    assert_eq!(rt; sink.put(b"c"), Ok(()));
    assert_eq!(rt; sink.written(), b"ac".as_slice());
    let mut sure = SureSink::new(alloc);
    assert_eq!(rt; sure.put(b"a"), Ok(()));
    assert_eq!(rt; sure.put(b"b"), Ok(()));
    assert_eq!(rt; sure.written(), b"ab".as_slice());
    Ok(())
}

/// The first of two files with one name counts, and a name that isn't there fails.
#[test]
fn shelf_in_memory(rt: HostRuntime) -> Result<(), Fail> {
    let alloc = rt.alloc();
    let mut files = Vec::new(alloc);
    for bytes in [b"first", b"other"] {
        files.push(NamedBytes {
            name: String::from_str(alloc, "f")?,
            bytes: Vec::from_slice(alloc, bytes.as_slice())?,
        })?;
    }
    let mut shelf = MemShelf::new(alloc, files, vec![in alloc; 2]?);
    let mut into = Vec::new(alloc);
    assert_eq!(rt; shelf.take("f", &mut into), Ok(()));
    assert_eq!(rt; into.as_slice(), b"first".as_slice());
    let mut into = Vec::new(alloc);
    assert_eq!(rt; shelf.take("f", &mut into), Err(ShelfFail::Failed));
    let mut into = Vec::new(alloc);
    assert_eq!(rt; shelf.take("g", &mut into), Err(ShelfFail::Failed));
    Ok(())
}
