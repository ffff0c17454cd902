//! Where the program reads input and writes output: in memory, with faults that a test sets, or
//! over the real files.
#![tactic(auto)]

mod kept;
mod sink;
mod source;
mod sure;
mod transfer;

pub use kept::KeptSource;
pub use sink::{MemSink, Sink, WriteSink};
pub use source::{Failed, MemSource, ReadSource, Source};
pub use sure::{SureSink, SureSource};
pub use transfer::{ReadError, read_all, write_all};
