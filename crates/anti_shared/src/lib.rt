//! An object that threads share. There is one legal history of it. Each thread calls by a `Pass`, which knows a front of that history and
//! its own calls in it, each once. A call takes the turn round the object, and makes the call where it is ready and fits; a call that waits
//! tries again until it is ready.
//!
//! What contracts see stands in `specs/Passes.antt`.
#![tactic(auto)]

mod calls;
mod kept;
mod laws;
mod marking;
mod pass;
mod port;
mod shared;

pub use kept::Kept;
pub use laws::{answers_never_fall, upto_is_whole, upto_never_falls};
pub use pass::Pass;
pub use port::SharedPort;
pub use shared::Shared;
