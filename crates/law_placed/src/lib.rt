//! What a placed application promises of all its runs: no lineage loses a write, and every read is settled. Laws of legal traces.
#![tactic(auto)]

mod laws;

pub use laws::placed_applications_keep_all;
