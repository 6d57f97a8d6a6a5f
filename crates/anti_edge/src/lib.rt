//! The outside of Antipode: where bytes come from and where they go, and the counts of faults that every failure shows in.
#![tactic(auto)]

mod failed;
mod give;
mod memory_sink;
mod memory_source;
mod plan;
mod real_stream;
mod sink;
mod source;
mod sure_sink;
mod sure_source;
mod whole_reads;
mod whole_writes;

pub use failed::Failed;
pub use memory_sink::MemorySink;
pub use memory_source::MemorySource;
pub use plan::Plan;
pub use real_stream::{RealSink, RealSource, RealStream};
pub use sink::Sink;
pub use source::Source;
pub use sure_sink::SureSink;
pub use sure_source::SureSource;
pub use whole_reads::{ReadRefused, read_all};
pub use whole_writes::write_all;
