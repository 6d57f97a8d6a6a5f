ghost use Rattle.std.specs.Prelude.{◌≡◌, ℕ, ◌<◌, ◌≤◌};
ghost use Rattle.anti_turn.specs.inner.Seats.{Sits};
ghost use Rattle.anti_turn.specs.inner.Views.{place_of};

use crate::listed::Listed;
use crate::view::View;
use std::marker::Model;

/// What a thread carries to enter a turn. It can be sent to another thread. A seat that is dropped counts as out for ever.
pub struct Seat<T: Listed> {
    pub(crate) seat: atomic_table::Seat<Option<T>, View<T::Entry, T::Fixed>>,
    pub(crate) room: u64,
    pub(crate) number: u32,
}

impl<T: Listed> Model for Seat<T> {
    ghost use Rattle.anti_turn.specs.Places.{Place};
    ghost use Rattle.anti_turn.specs.inner.Views.{place_of};
    ghost use Rattle.anti_turn.specs.inner.Seats.{Sits};

    ghost Value = { Place T.Entry T.Fixed };

    ghost view = { λ s. place_of s.seat.table_id s.seat.me.0 };

    ghost invariant = { λ s. Sits s.seat.me s.room s.number };
}

impl<T: Listed> Seat<T> {
    /// How many seats can still be made from this one, those that are made from these included: at most 2^32 - 2. It takes no memory.
    pub fn room(&self) -> u64
        ensures is { result ≡ self.now.room }
        ensures most { result ≤ 4294967294 }
    {
        self.room
    }

    /// The seat's number, under which its entries stand: at least 1, and 1 for the first seat. It takes no memory.
    pub fn number(&self) -> u32
        ensures is { result ≡ self.now.number }
        ensures positive { 0 < result }
    {
        self.number
    }

    // The seat at the table, and the room.
    pub(crate) fn into_parts(self) -> (atomic_table::Seat<Option<T>, View<T::Entry, T::Fixed>>, u64)
        ensures sits { (number : ℕ) × Sits result.0.me result.1 number }
        ensures shown { self ≡ place_of result.0.table_id result.0.me.0 }
    {
        let Self {
            seat,
            room,
            number: _,
        } = self;
        (seat, room)
    }
}

impl<T: Listed> Drop for Seat<T> {
    fn drop(self) {
        let Self {
            seat: _,
            room: _,
            number: _,
        } = self;
    }
}
