//! What a program meets outside: a shelf of named files to read, and a sink for what it writes.
#![tactic(auto)]

mod file_shelf;
mod memory_shelf;
mod memory_sink;
mod scripted;
mod shelf;
mod sink;
mod std_sink;

pub use file_shelf::FileShelf;
pub use memory_shelf::MemShelf;
pub use memory_sink::MemSink;
pub use shelf::{Got, ReadAnswer, Shelf, ShelfFault};
pub use sink::{Sink, SinkFault};
pub use std_sink::StdSink;
