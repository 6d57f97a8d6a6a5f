//! A store of the kind topic: channels of cells, of which each subscription pulls its own in their order, as they are whole at its
//! region.
#![tactic(auto)]

mod changes;
mod pull_cursor;
mod pulls;
mod topic_store;

pub use topic_store::Topic;
