//! The objects of an application: what each starts as, and one type for the machines of all of them, with lists of these.
#![tactic(auto)]

mod from_app;
mod lists;
mod object;

pub use lists::{Kepts, Objects};
pub use object::Object;
