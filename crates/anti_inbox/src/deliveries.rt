//! The free deliveries of an inbox. They leave from the middle of thousands, so they are kept in a list with tickets.
ghost use Rattle.std.specs.Prelude.{◌≡◌, ◌+◌, ◌-◌, ◌<◌, ◌^◌, not, ◌==◌, [], ◌∷◌, ◌++◌, length, filter, drop, Some, OnOk, OnErr, slice_index_or};
ghost use Rattle.std.specs.List.{remove};
ghost use Rattle.anti_flight.specs.Tickets.{Holds, first_ticket};
ghost use Rattle.anti_flight.specs.Queued.{queued, items_of};

use anti_flight::{Flight, Ticket};
use anti_ids::NoMemory;
use std::alloc::Global;
use std::marker::Model;

/// The numbers of the messages of free deliveries, in the order of these. One that leaves costs the way to it from the first, and
/// nothing for those behind it.
#[derive(Drop)]
pub(crate) struct Deliveries {
    flight: Flight<u32>,
}

impl Model for Deliveries {
    ghost use Rattle.std.specs.Prelude.{◌≤◌, ℕ, length};
    ghost use Rattle.std.specs.Coded.{coded_ℕ};
    ghost use Rattle.anti_flight.specs.Queued.{Queued, queued_code, seen};

    ghost Value = { Queued ℕ };

    ghost coded = { queued_code coded_ℕ };

    ghost view = { λ d. seen d.flight };

    ghost invariant = { λ d. length d.flight.pairs ≤ d.flight.next };
}

// The ticket at an index.
fn ticket_at(flight: &Flight<u32>, index: u32) -> Ticket
    requires { index < length flight.now.pairs }
    ensures held { Holds flight.now.pairs result }
    ensures here { first_ticket (drop index flight.now.pairs) ≡ Some result }
{
    let Some(mut at) = flight.front() else {
        unreachable!() // one is at the index
    };
    for _ in 0..index {
        let Some(next) = flight.after(&at) else {
            unreachable!() // the index is further on
        };
        at = next;
    }
    at
}

// Takes all deliveries of a message out.
fn unlink_all(flight: &mut Flight<u32>, number: u32)
    ensures left { items_of flight.new.pairs ≡ filter (λ n. not (n == number)) (items_of flight.old.pairs) }
    ensures next { flight.new.next ≡ flight.old.next }
{
    let mut at = flight.front();
    for _ in 0..flight.len() {
        let Some(ticket) = at else {
            unreachable!() // there are so many
        };
        at = flight.after(&ticket);
        if *flight.item(&ticket) == number {
            flight.unlink(ticket);
        }
    }
}

impl Deliveries {
    /// No deliveries. It takes no memory.
    pub(crate) fn new(alloc: Global) -> Deliveries
        ensures { result ≡ queued [] 0 }
    {
        Deliveries {
            flight: Flight::new(alloc),
        }
    }

    /// How many there are.
    pub(crate) fn len(&self) -> u32
        ensures { result ≡ length self.now.items }
    {
        self.flight.len()
    }

    /// The number of the message of one of them.
    pub(crate) fn at(&self, index: u32) -> u32
        requires { index < length self.now.items }
        ensures { result ≡ slice_index_or self.now.items index result }
    {
        *self.flight.item(&ticket_at(&self.flight, index))
    }

    /// Puts one in last. Where there is no memory they are as they were.
    pub(crate) fn push(&mut self, number: u32) -> Result<(), NoMemory>
        requires { self.old.next < 2 ^ 32 - 1 }
        ensures ok { OnOk result (self.new ≡ queued (self.old.items ++ number ∷ []) (self.old.next + 1)) }
        ensures err { OnErr result (self.new ≡ self.old) }
    {
        match self.flight.push_back(number) {
            Ok(_ticket) => Ok(()),
            Err((_number, refused)) => Err(refused),
        }
    }

    /// Takes one of them out, and tells the number of its message.
    pub(crate) fn remove(&mut self, index: u32) -> u32
        requires { index < length self.old.items }
        ensures value { result ≡ slice_index_or self.old.items index result }
        ensures left { self.new ≡ queued (remove self.old.items index) self.old.next }
    {
        let ticket = ticket_at(&self.flight, index);
        self.flight.unlink(ticket)
    }

    /// Takes all of a message out.
    pub(crate) fn remove_all(&mut self, number: u32)
        ensures { self.new ≡ queued (filter (λ n. not (n == number)) self.old.items) self.old.next }
    {
        unlink_all(&mut self.flight, number);
    }
}
