//! A store of the kind kv: keys with values, of which each replica shows the greatest version that came to it.
#![tactic(auto)]

mod kv_store;

pub use kv_store::Kv;
