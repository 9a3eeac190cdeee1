//! Byte sources and sinks, lists that contracts see as lists, and the numbers of standard input.
#![tactic(auto)]

mod error;
mod in_memory;
mod list;
mod numeral;
mod real;
mod stream;
mod transfer;

pub use error::{Failed, Memory};
pub use in_memory::{MemSink, MemSource};
pub use list::{Bytes, List};
pub use numeral::number;
pub use real::{ReaderSource, RealSink, RealSource, WriterSink};
pub use stream::{Sink, Source};
pub use transfer::{ReadEnd, read_all, write_all};

#[cfg(test)]
mod tests;
