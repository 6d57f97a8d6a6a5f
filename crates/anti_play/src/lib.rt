//! Schedules: what the choices of an application make of its stores, inboxes and processes.
#![tactic(auto)]

mod choice_call;
mod finish;
mod first_world;
mod kept_world;
mod laws;
mod player;
mod reading;
mod world;
mod world_agenda;
mod world_trace;
mod world_view;

pub use first_world::objects;
pub use laws::{finish_completes, pulls_start_handlers};
pub use player::{Played, play};
pub use world::World;
