//! A store of the kind queue: messages of channels, each of which is handed out to one of its subscriptions at a time, until it is
//! done or was tried often enough.
#![tactic(auto)]

mod free_list;
mod handouts;
mod message_states;
mod queue_store;
mod subscribers;
mod writes;

pub use queue_store::Queue;
