//! Tests of the stores that threads share and of their clients.
#![tactic(auto)]

mod asking;
mod closed;
mod crowd;
mod rows;
mod stores;
mod threads;
mod worker;
