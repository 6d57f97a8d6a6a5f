//! The order that explains what reads of a trace showed, and why it does: laws of legal traces that lose no lineage.
#![tactic(auto)]

mod laws;

pub use laws::{
    orders_are_serial, orders_by_causes_are_serial, reads_of_a_span_are_a_chain,
    settled_reads_miss_nothing,
};
