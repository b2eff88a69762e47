//! Where bytes come from and where they go: sources and sinks that count their faults.
#![tactic(auto)]

mod failed;
mod memory;
mod reading;
mod sink;
mod source;
mod stream;
mod writing;

pub use failed::Failed;
pub use memory::{MemSink, MemSource, Plan};
pub use reading::{ReadFail, read_all};
pub use sink::Sink;
pub use source::Source;
pub use stream::{ReaderSource, WriterSink};
pub use writing::write_all;
