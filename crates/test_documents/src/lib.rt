//! The tests that play whole documents, most of them through the top call, a file for each matter that they are about. The crates
//! themselves have none, so that each is proved once.
#![tactic(auto)]

#[cfg(test)]
mod absent;
#[cfg(test)]
mod call_rows;
#[cfg(test)]
mod command;
#[cfg(test)]
mod counterexamples;
#[cfg(test)]
mod findings;
#[cfg(test)]
mod finishes;
#[cfg(test)]
mod hostile;
#[cfg(test)]
mod loads;
#[cfg(test)]
mod orders;
#[cfg(test)]
mod past;
#[cfg(test)]
mod placements;
#[cfg(test)]
mod pulls;
#[cfg(test)]
mod refusals;
#[cfg(test)]
mod rules;
#[cfg(test)]
mod run_rows;
#[cfg(test)]
mod runs;
#[cfg(test)]
mod services;
#[cfg(test)]
mod stores;
#[cfg(test)]
mod text;
#[cfg(test)]
mod workers;
