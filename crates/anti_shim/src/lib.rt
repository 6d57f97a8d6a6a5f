//! What a caller does with the stores of a port: reads and writes that keep the lineage, and
//! barriers.
//!
//! A `Caller` makes the calls. A `StoreShim`, which is a `KvShim`, a `TableShim`, a `BlobShim`, a
//! `QueueShim` or a `TopicShim`, makes those of one store. `barrier` waits for the writes of a
//! lineage at all stores of a region, `barrier_wait` does so where the port's calls may wait, and
//! `dry_run` names those that are not visible there: all make the looks of `plan`. A `Sight` tells where a look found nothing missing, and a `Barrier`
//! keeps the sights.
#![tactic(auto)]

mod asks;
mod barrier_answer;
mod barrier_call;
mod barrier_cursor;
mod caller;
mod dry_run_call;
mod fault;
mod handing_out;
mod kinds;
mod laws;
mod looks;
mod sight;
mod store_shim;
mod transfer;

pub use barrier_answer::BarrierAnswer;
pub use barrier_call::{barrier, barrier_wait};
pub use barrier_cursor::Barrier;
pub use caller::Caller;
pub use dry_run_call::dry_run;
pub use fault::ShimFault;
pub use kinds::{
    BlobShim, BlobStore, HandsOut, KvShim, KvStore, QueueShim, QueueStore, ReadByKey, TableShim,
    TableStore, TopicShim, TopicStore,
};
pub use laws::reads_show_what_was_seen;
pub use looks::{Looks, PlannedLook, plan};
pub use sight::{Sight, Sights};
pub use store_shim::StoreShim;
pub use transfer::transfer_row;
