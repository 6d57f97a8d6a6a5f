ghost use Rattle.std.specs.Prelude.{◌≡◌, ◌-◌, ◌<◌, false, IfOk, IsOk, OnErr};
ghost use Rattle.anti_turn.specs.Places.{IsJoined, IsSplit, with_room};

use crate::listed::Listed;
use crate::plays::{Cut, Lower, Merge, Raise};
use crate::seat::Seat;
use crate::turn::{MADE, ONE_MORE, SEATS, Turn};
use anti_ids::NoMemory;

impl<T: Listed> Turn<T> {
    /// Makes a further seat, with a number that no other has, and half of the room that is left, rounded down. It uses up one of the room.
    /// The error is want of memory, which never comes: the call takes none.
    pub fn split(&self, seat: &mut Seat<T>) -> Result<Seat<T>, NoMemory>
        requires turn { seat.old.id ≡ self.now.id }
        requires free { seat.old.holds ≡ false }
        requires room { 0 < seat.old.room }
        ensures ok { IfOk result (λ new. IsSplit T.by seat.old seat.new new) }
        ensures err { OnErr result (seat.new ≡ with_room seat.old (seat.old.room - 1)) }
        ensures never_err { IsOk result }
    {
        let shared = &self.table.shared;
        let found = shared.fetch_add::<Raise<T>>(&mut seat.seat, SEATS, ONE_MORE);
        let number = (found / MADE) as u32 + 1;
        let left = seat.room - 1;
        let room = left / 2;
        seat.room = left - room;
        let new = shared.split_seat::<Cut<T>>(&mut seat.seat);
        Ok(Seat {
            seat: new,
            room,
            number,
        })
    }

    /// Gives up the seat `from`. What it had seen, its number and its room go to `into`. It takes no memory.
    pub fn join(&self, into: &mut Seat<T>, from: Seat<T>)
        requires into_turn { into.old.id ≡ self.now.id }
        requires from_turn { from.id ≡ self.now.id }
        requires into_free { into.old.holds ≡ false }
        requires from_free { from.holds ≡ false }
        ensures { IsJoined T.by into.old from into.new }
    {
        let (seat, room) = from.into_parts();
        let shared = &self.table.shared;
        shared.join_seat::<Merge<T>>(&mut into.seat, seat);
        shared.fetch_sub::<Lower<T>>(&mut into.seat, SEATS, 1);
        into.room += room;
    }
}
