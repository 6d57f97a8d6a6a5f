//! The inbox of a service: its messages wait there to be taken, each once, and the replies to calls wait for their callers.
#![tactic(auto)]

mod changes;
mod deliveries;
mod inbox;
mod laws;
mod machine;

pub use inbox::Inbox;
pub use laws::{
    answered_once, heard_came, heard_once, reserved_fits, taken_came, taken_is_gone, takes_get,
    takes_once,
};
