//! Sessions: what a request saw, in its own spans and through the calls that it waited for.
#![tactic(auto)]

mod calls;
mod laws;
mod session_index;
mod session_spans;
mod span_members;

pub use laws::{members_are_a_chain, sessions_are_explained};
pub use session_spans::{session_answers, sessions};
pub use span_members::{members, session_order};
