//! The causal order of a legal trace, what the lineages of its processes carry of it, and what they lose.
#![tactic(auto)]

mod laws;

pub use laws::{barriers_find_all, carried_ids_were_written, carried_sets_are_the_causal_past};
