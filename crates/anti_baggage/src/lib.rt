//! Baggage: the text of a lineage, as it goes with a message from one program to another.
#![tactic(auto)]

mod baggage;
mod carried;
mod decoder;
mod encoder;
mod escapes;
mod fault;
mod held;
mod laws;
mod named_id;
mod over;
mod place;

pub use baggage::{Baggage, Told};
pub use carried::Carried;
pub use decoder::decode;
pub use encoder::{encode, encode_one};
pub use escapes::escape;
pub use fault::BaggageFault;
pub use laws::texts_state_lineages;
