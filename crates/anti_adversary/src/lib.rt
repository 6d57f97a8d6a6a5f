//! Schedules that are unkind to an application: one is looked for whose run has a read that misses a write.
#![tactic(auto)]

mod brought;
mod draw;
mod driver;
mod examined;
mod goal;
mod going;
mod keys;
mod list;
mod live;
mod meaning;
mod named;
mod order;
mod player;
mod ranking;
mod schedule;
mod searching;
mod shipments;
mod shipping;
mod shorten;
mod shown;
mod stage;
mod stores;
mod touches;
mod verdict;
mod waiting;

pub use searching::search;
pub use verdict::{Hint, Shown, Verdict};
