//! Whether barriers, transfers and roots stand where they must in an application: from its text alone, for all its runs.
#![tactic(auto)]

mod barriers;
mod body;
mod doubt;
mod fault;
mod faults;
mod flow;
mod laws;
mod placement;
mod reason;
mod remark;
mod reviewing;
mod search;
mod targets;

pub use laws::{review_begins_with_the_placement, superfluous_barriers_can_go};
pub use placement::{Placement, placed};
pub use reason::Reason;
pub use remark::{Finding, Remark};
pub use reviewing::review;
