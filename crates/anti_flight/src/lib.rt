//! A list from whose middle items leave: a doubly linked list over raw pointers (Knuth, The Art of Computer Programming, 2.2.5). Each
//! item that is put in gets a ticket, by which it is found again and taken out, at the same cost wherever it stands.
//!
//! What contracts see of a list stands in `specs/Tickets.antt`: its pairs of a ticket and an item, and the number of the next ticket.
//! `specs/inner` has what a node owns and lends, and how a list stands for its pairs.
#![tactic(auto)]

mod block;
mod chain;
mod ends;
mod flight;
mod held;
mod ticket;

pub use flight::Flight;
pub use ticket::Ticket;
