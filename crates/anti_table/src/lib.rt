//! A store of the kind table: keys with values, which are shipped in the order of their versions, and scans over all keys with a prefix.
#![tactic(auto)]

mod table_store;

pub use table_store::Table;
