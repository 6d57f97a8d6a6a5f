//! What a run may make next: the offers that may make an entry, and those that wait for something at an object. It knows nothing of
//! applications and traces: who keeps an agenda says what an offer stands for.
#![tactic(auto)]

mod agenda;
mod awake;
mod marks;
mod offer;
mod sleepers;
mod wakes;

pub use agenda::Agenda;
pub use offer::{Offer, Sleeper};
