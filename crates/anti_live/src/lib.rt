//! Stores that the threads of a program share, and clients that carry a lineage: they write and read, wait by barriers until what they
//! depend on is visible in their region, and hand what they carry on as text.
//!
//! What contracts see stands in `specs/Stores.antt` (the stores), `specs/Clients.antt` (a client, and what a call leaves), and
//! `specs/Headers.antt` (the texts).
#![tactic(auto)]

mod barriers;
mod calls;
mod client;
mod clients;
mod closing;
mod headers;
mod live;
mod port;
mod stores;

pub use client::Client;
pub use headers::{CarryFault, CarryOutFault};
pub use live::Live;
pub use stores::{LiveKind, LiveStore, LiveStores, Regions};
