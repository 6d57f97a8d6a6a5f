//! The list, as callers have it.
ghost use Rattle.std.specs.Prelude.{◌≡◌, ◌+◌, ◌-◌, ◌^◌, ◌<◌, [], ◌∷◌, ◌++◌, length, OnOk, IfOk, IfErr, IfSome, true};
ghost use Rattle.std.specs.Option.{is_some};
ghost use Rattle.anti_flight.specs.Tickets.{in_flight, Holds, AtTicket, Rises, IsOf, first_ticket, has_number};
ghost use Rattle.anti_flight.specs.inner.Linked.{IsAt, AtNode};
ghost use Rattle.anti_flight.specs.inner.Standing.{ticket_of, nodes_of};

use crate::block::Place;
use crate::ends::Ends;
use crate::held::Held;
use crate::ticket::Ticket;
use anti_ids::NoMemory;
use std::alloc::{AllocError, Global};
use std::marker::Model;
use std::mem;

/// A list from whose middle items leave. It is freed with its items where it ends.
pub struct Flight<T> {
    // None until the first item comes
    ends: Option<Ends<Held<T>>>,
    len: u32,
    // the number of the next ticket
    next: u64,
    alloc: Global,
}

impl<T> Model for Flight<T> {
    ghost use Rattle.anti_flight.specs.Tickets.{InFlight, in_flight_code};

    ghost Value = { InFlight T };

    ghost coded = { in_flight_code T.code };

    ghost use Rattle.anti_flight.specs.inner.Standing.{shown, Stands};

    ghost view = { λ f. shown f.ends f.next };

    ghost invariant = { λ f. Stands f.ends f.len f.next };
}

impl<T: Drop> Drop for Flight<T> {
    fn drop(mut self) {
        while let Some(ticket) = self.front() {
            drop(self.unlink(ticket));
        }
        let Flight {
            ends,
            len: _,
            next: _,
            alloc,
        } = self;
        if let Some(ends) = ends {
            ends.free(&alloc);
        }
    }
}

// The ticket of the node at a place.
fn ticket_at<T>(ends: &Ends<Held<T>>, place: Place) -> Ticket
    requires { IsAt ends.now place.ptr }
    ensures { AtNode ends.now place.ptr (λ _ n _. result ≡ ticket_of n) }
{
    Ticket {
        number: ends.value(place).number,
        place,
    }
}

// Makes the two ends if there are none yet.
fn make_ends<T>(ends: &mut Option<Ends<T>>, alloc: &Global) -> Result<(), AllocError>
    ensures ok { OnOk result (is_some ends.new ≡ true) }
    ensures nodes { nodes_of ends.new ≡ nodes_of ends.old }
{
    if ends.is_none() {
        let made = Ends::new(alloc)?;
        match mem::replace(ends, Some(made)) {
            None => {}
            Some(_old) => unreachable!(),
        }
    }
    Ok(())
}

impl<T> Flight<T> {
    /// The empty list, whose first ticket will have the number 0. It takes no memory.
    pub fn new(alloc: Global) -> Flight<T>
        ensures { result ≡ in_flight [] 0 }
    {
        Flight {
            ends: None,
            len: 0,
            next: 0,
            alloc,
        }
    }

    /// How many items are in the list.
    pub fn len(&self) -> u32
        ensures len { result ≡ length self.now.pairs }
        ensures rises { Rises self.now.pairs self.now.next }
    {
        self.len
    }

    /// The number of the next ticket, which is above that of every ticket in the list.
    pub fn next(&self) -> u64
        ensures next { result ≡ self.now.next }
        ensures rises { Rises self.now.pairs self.now.next }
    {
        self.next
    }

    /// Puts an item in last, and gives its ticket. Where there is no memory the item comes back, and the list is as it was.
    pub fn push_back(&mut self, item: T) -> Result<Ticket, (T, NoMemory)>
        requires number { self.old.next < 2 ^ 64 - 1 }
        requires room { length self.old.pairs < 2 ^ 32 - 1 }
        ensures ok { IfOk result (λ t. (t.number ≡ self.old.next) × (self.new ≡ in_flight (self.old.pairs ++ (t, item) ∷ []) (self.old.next + 1))) }
        ensures held { IfOk result (λ t. Holds self.new.pairs t) }
        ensures given { IfOk result (λ t. IsOf self.new t) }
        ensures kept { (t : Ticket) → IsOf self.old t → IsOf self.new t }
        ensures err { IfErr result (λ e. (e.0 ≡ item) × (self.new ≡ self.old)) }
    {
        if make_ends(&mut self.ends, &self.alloc).is_err() {
            return Err((item, NoMemory));
        }
        let Some(ends) = &mut self.ends else {
            unreachable!()
        };
        let number = self.next;
        match ends.push_back(&self.alloc, Held { number, item }) {
            Ok(place) => {
                self.len += 1;
                self.next += 1;
                Ok(Ticket { number, place })
            }
            Err((held, _)) => {
                let Held { number: _, item } = held;
                Err((item, NoMemory))
            }
        }
    }

    /// Takes an item out, wherever it stands. It takes no memory.
    pub fn unlink(&mut self, ticket: Ticket) -> T
        requires { Holds self.old.pairs ticket }
        ensures left { AtTicket self.old.pairs ticket (λ xs x ys. (self.new ≡ in_flight (xs ++ ys) self.old.next) × (result ≡ x)) }
        ensures kept { (t : Ticket) → IsOf self.old t → IsOf self.new t }
    {
        let Some(ends) = &mut self.ends else {
            unreachable!()
        };
        let Held { number: _, item } = ends.unlink(&self.alloc, ticket.place);
        self.len -= 1;
        item
    }

    /// The ticket of the first item; None exactly where the list is empty. It takes no memory.
    pub fn front(&self) -> Option<Ticket>
        ensures first { result ≡ first_ticket self.now.pairs }
        ensures held { IfSome result (λ t. Holds self.now.pairs t) }
    {
        if self.len == 0 {
            return None;
        }
        let Some(ends) = &self.ends else {
            unreachable!()
        };
        Some(ticket_at(ends, ends.first()))
    }

    /// The ticket of the item behind this one; None exactly at the last. It takes no memory.
    pub fn after(&self, ticket: &Ticket) -> Option<Ticket>
        requires { Holds self.now.pairs ticket.now }
        ensures next { AtTicket self.now.pairs ticket.now (λ _ _ ys. result ≡ first_ticket ys) }
        ensures held { IfSome result (λ t. Holds self.now.pairs t) }
    {
        let Some(ends) = &self.ends else {
            unreachable!()
        };
        // places of two nodes can't be compared, and the numbers rise
        if ticket_at(ends, ends.last()).number == ticket.number {
            return None;
        }
        Some(ticket_at(ends, ends.after(ticket.place)))
    }

    /// The item of a ticket. It takes no memory.
    pub fn item(&self, ticket: &Ticket) -> &T
        requires { Holds self.now.pairs ticket.now }
        ensures { AtTicket self.now.pairs ticket.now (λ _ x _. result.now ≡ x) }
    {
        let Some(ends) = &self.ends else {
            unreachable!()
        };
        &ends.value(ticket.place).item
    }

    /// Whether an item has a ticket of this number. Of a ticket that this list gave that is whether its item is still in the list; a
    /// ticket of another list may have the number of another item. It goes through the list, and takes no memory.
    pub fn holds(&self, ticket: &Ticket) -> bool
        ensures number { result ≡ has_number ticket.now.number self.now.pairs }
        ensures held { IsOf self.now ticket.now → result ≡ true → Holds self.now.pairs ticket.now }
    {
        let mut at = self.front();
        for _ in 0..self.len {
            let Some(found) = at else { return false };
            if found.number == ticket.number {
                return true;
            }
            at = self.after(&found);
        }
        false
    }
}
