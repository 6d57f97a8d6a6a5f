//! What reads of any legal trace missed, or an order that explains them: found by what is causally before them, whatever their lineages have
//! of it.
#![tactic(auto)]

mod causes;
mod diagnosis;
mod examining;
mod findings;
mod grounds;
mod laws;
mod missing;
mod passages;
mod write_index;

pub use diagnosis::{Diagnosis, Finding, Findings, SpanDiagnoses, SpanDiagnosis};
pub use examining::{diagnoses, examine};
pub use laws::diagnoses_decide;
