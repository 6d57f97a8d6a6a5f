//! What all kinds of store share: the writes in their order, the parts that came to each region, what each region therefore shows
//! for a key, looks and reads, and the units that are held and owed. A kind of store is its own table of calls round it. What queues
//! and topics share besides: how many writes each channel has, and the keys of its cells.
#![tactic(auto)]

mod backlog;
mod cells;
mod channels;
mod kept_write;
mod keyed;
mod looks;
mod newest;
mod reads;
mod replaced;
mod replicas;
mod scans;
mod shared;
mod shipments;
mod units;
mod waits;
mod writes;

pub use cells::cell_key;
pub use channels::Channels;
pub use looks::add_id;
pub use replicas::Replicas;
