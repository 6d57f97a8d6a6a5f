//! The groups of versions that a region does not have yet. They leave as they come, in any order, so they are kept in a list with tickets.
ghost use Rattle.std.specs.Prelude.{◌≡◌, ◌+◌, ◌-◌, ◌<◌, ◌^◌, [], ◌∷◌, ◌++◌, OnOk, OnErr, IfSome, IfNone};
ghost use Rattle.anti_flight.specs.Queued.{queued, items_of};
ghost use Rattle.anti_replicas.specs.inner.Backlogs.{IsFirst, first, remove_first, passed};

use anti_flight::{Flight, Ticket};
use anti_ids::NoMemory;
use std::alloc::Global;
use std::marker::Model;

/// So many versions, one behind another, are a group: an item of the list is a block of memory, and most versions come in their order.
pub(crate) const IN_GROUP: u64 = 8;

/// Groups in their order, by their numbers from 1 on: each is put in once, and leaves once all its versions are whole at the region. One
/// that leaves costs the way to it from the first, and nothing for those behind it.
#[derive(Drop)]
pub(crate) struct Backlog {
    flight: Flight<u64>,
    // how many groups, from the first on, the region has
    upto: u64,
}

impl Model for Backlog {
    ghost use Rattle.std.specs.Prelude.{◌≡◌, ◌≤◌, ℕ, length};
    ghost use Rattle.std.specs.Coded.{coded_ℕ};
    ghost use Rattle.anti_flight.specs.Queued.{Queued, queued_code, seen, items_of};
    ghost use Rattle.anti_replicas.specs.inner.Backlogs.{passed};

    ghost Value = { Queued ℕ };

    ghost coded = { queued_code coded_ℕ };

    ghost view = { λ b. seen b.flight };

    ghost invariant = { λ b.
        (length b.flight.pairs ≤ b.flight.next)
        × (b.upto ≡ passed (items_of b.flight.pairs) b.flight.next) };
}

// The ticket of the first item that is this group.
fn ticket_of(flight: &Flight<u64>, group: u64) -> Option<Ticket>
    ensures some { IfSome result (λ t. IsFirst group t flight.now.pairs) }
    ensures none { IfNone result (remove_first group (items_of flight.now.pairs) ≡ items_of flight.now.pairs) }
{
    let mut at = flight.front();
    for _ in 0..flight.len() {
        let Some(ticket) = at else {
            unreachable!() // there are so many
        };
        if *flight.item(&ticket) == group {
            return Some(ticket);
        }
        at = flight.after(&ticket);
    }
    None
}

// The first item.
fn first_of(flight: &Flight<u64>) -> Option<u64>
    ensures { result ≡ first (items_of flight.now.pairs) }
{
    match flight.front() {
        Some(ticket) => Some(*flight.item(&ticket)),
        None => None,
    }
}

// How many groups, from the first on, are there, where these are not.
fn passed_by(flight: &Flight<u64>) -> u64
    ensures { result ≡ passed (items_of flight.now.pairs) flight.now.next }
{
    match first_of(flight) {
        Some(group) => group.saturating_sub(1),
        None => flight.next(),
    }
}

impl Backlog {
    /// No groups. It takes no memory.
    pub(crate) fn new(alloc: Global) -> Backlog
        ensures { result ≡ queued [] 0 }
    {
        Backlog {
            flight: Flight::new(alloc),
            upto: 0,
        }
    }

    /// The group that was put in last, those that left included; 0 before the first.
    pub(crate) fn last_put(&self) -> u64
        ensures { result ≡ self.now.next }
    {
        self.flight.next()
    }

    /// How many groups, from the first on, the region has.
    pub(crate) fn passed(&self) -> u64
        ensures { result ≡ passed self.now.items self.now.next }
    {
        self.upto
    }

    /// Puts in the group behind the one that was put in last. Where there is no memory all is as it was.
    pub(crate) fn push(&mut self) -> Result<(), NoMemory>
        requires { self.old.next < 2 ^ 32 - 1 }
        ensures ok { OnOk result (self.new ≡ queued (self.old.items ++ (self.old.next + 1) ∷ []) (self.old.next + 1)) }
        ensures err { OnErr result (self.new ≡ self.old) }
    {
        let group = self.flight.next() + 1;
        match self.flight.push_back(group) {
            Ok(_ticket) => Ok(()),
            Err((_group, refused)) => Err(refused),
        }
    }

    /// Takes a group out, if it is there. It takes no memory.
    pub(crate) fn remove(&mut self, group: u64)
        ensures { self.new ≡ queued (remove_first group self.old.items) self.old.next }
    {
        if let Some(ticket) = ticket_of(&self.flight, group) {
            self.flight.unlink(ticket);
            self.upto = passed_by(&self.flight);
        }
    }
}
