//! The tests of the libraries below the top call, a file for each crate or matter that they are about. The crates themselves have none,
//! so that each is proved once.
#![tactic(auto)]

#[cfg(test)]
mod app;
#[cfg(test)]
mod baggage;
#[cfg(test)]
mod blob;
#[cfg(test)]
mod cached;
#[cfg(test)]
mod cells;
#[cfg(test)]
mod edge;
#[cfg(test)]
mod flight;
#[cfg(test)]
mod handing_out;
#[cfg(test)]
mod ids;
#[cfg(test)]
mod inbox;
#[cfg(test)]
mod kv;
#[cfg(test)]
mod lang;
#[cfg(test)]
mod made;
#[cfg(test)]
mod place;
#[cfg(test)]
mod ports;
#[cfg(test)]
mod queue;
#[cfg(test)]
mod shared;
#[cfg(test)]
mod shared_upto;
#[cfg(test)]
mod shim;
#[cfg(test)]
mod steps;
#[cfg(test)]
mod table;
#[cfg(test)]
mod thread_safety;
#[cfg(test)]
mod topic;
#[cfg(test)]
mod trace;
#[cfg(test)]
mod turn;
#[cfg(test)]
mod two_stores;
