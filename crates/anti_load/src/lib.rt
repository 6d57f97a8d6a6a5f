//! The application of a load: so many requests, whose values a generator draws from their number.
#![tactic(auto)]

mod application;
mod lists;
mod names;
mod requests;
mod services;
mod stores;

pub use application::load_app;
