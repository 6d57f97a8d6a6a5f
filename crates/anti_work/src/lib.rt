//! Workers: threads that play an application on shared objects, each its own services and stores, until none of them can do more.
#![tactic(auto)]

mod asking;
mod bearing;
mod carrying;
mod dealt;
mod done;
mod draw;
mod drawn;
mod gate;
mod gathering;
mod goes;
mod going;
mod laws;
mod noting;
mod rounds;
mod running;
mod sharing;
mod ships;
mod start;
mod worker;

pub use done::Done;
pub use gate::{Gate, Open};
pub use laws::merged_histories_are_legal;
pub use running::run_workers;
pub use start::Start;
