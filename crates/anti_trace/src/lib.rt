//! Traces: what happened on all objects, as one list of entries in one order.
//!
//! Each object has a history of its own, and a trace holds the entries of all of them by stamp, and by object number where
//! two stamps are equal. A history is read off a trace as what the trace holds on its object.
//!
//! Which traces are runs of an application is said by their parts, in `specs/Legal.antt`. Who goes along a legal trace has its
//! processes go past each entry.
#![tactic(auto)]

mod aftermath;
mod ends;
mod heads;
mod history_merge;
mod laws;
mod mark;
mod objects;
mod owners;
mod process_steps;
mod processes;
mod processes_along;
mod trace;
mod trail;

pub use aftermath::{Aftermath, Going};
pub use ends::{Ends, ProcessEnd};
pub use history_merge::{Histories, merge};
pub use laws::{legal_traces_are_known, nothing_is_foreign};
pub use mark::Mark;
pub use objects::{EndOfObjects, ObjectsAfter};
pub use owners::{is_by, is_on};
pub use process_steps::{advance, born};
pub use processes::{AtObject, Processes};
pub use trace::Trace;
pub use trail::{Trail, leaves_trail};
