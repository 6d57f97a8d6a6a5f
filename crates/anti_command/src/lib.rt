//! The top call: it does what words ask for with the document that a source has, and tells why where it can't.
#![tactic(auto)]

mod app_source;
mod command;
mod dispatch;
mod fault;
mod fault_line;
mod outcome;
mod prepared;
mod products;
mod run;
mod telling;
mod top;

pub use command::Command;
pub use fault::{TopFault, status_of};
pub use fault_line::tell;
pub use outcome::{Outcome, RunKept};
pub use top::{antipode, antipode_plain};
