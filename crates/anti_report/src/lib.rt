//! What is told of a run: its report, its counts, and the forms in which these are printed.
#![tactic(auto)]

mod form;
mod report;
mod run_counts;

pub use form::Form;
pub use report::Report;
pub use run_counts::RunCounts;
