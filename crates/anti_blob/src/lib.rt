//! A store of the kind blob: keys with values in parts, of which each replica shows the greatest version that is whole there.
#![tactic(auto)]

mod blob_store;

pub use blob_store::Blob;
