//! The outside, as two traits: a `Shelf` that files are taken from by name, and a `Sink` that lines are written to.
//!
//! Begin with `Shelf` and `Sink`. What may fail outside is counted there, so that a program can say of a
//! failure that the outside caused it. `MemShelf`, `MemSink` and `SureSink` live in memory and tell all they hold;
//! `DiskShelf` and `OutSink` are thin adapters over a file and the standard output, and tell nothing.
#![tactic(auto)]

mod disk;
mod failures;
mod memory;
mod out_sink;
mod shelf;
mod sink;
mod status;
#[cfg(test)]
mod tests;

pub use disk::DiskShelf;
pub use memory::{MemShelf, MemSink, NamedBytes, SureSink};
pub use out_sink::OutSink;
pub use shelf::{LIMIT, Shelf, ShelfFail};
pub use sink::{Sink, SinkFail};
pub use status::Status;
