//! What the processes of a trace carried, what they lost, and which reads are settled: found by one walk along the trace. And where in the
//! trace an entry stands.
#![tactic(auto)]

mod before_reads;
mod calls;
mod came;
mod carried_lineage;
mod course;
mod finds;
mod found_ids;
mod holds;
mod look_passes;
mod losses;
mod marks;
mod processes_before;
mod settled_reads;
mod span_finds;
mod span_keys;
mod span_reads;
mod trail_cursor;
mod walk;

pub use before_reads::Past;
pub use calls::reads;
pub use carried_lineage::carried;
pub use course::Course;
pub use losses::first_loss;
pub use marks::PlaceByMark;
pub use settled_reads::settled;
pub use span_keys::{SpanKey, key_of};
pub use span_reads::{ReadsOfSpan, Span, Spans, note_under, reads_by_span, spans};
