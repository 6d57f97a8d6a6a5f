ghost use Rattle.std.specs.Prelude.{◌≡◌, ◌<◌, ◌≤◌, IfSome};
ghost use Rattle.anti_turn.specs.Lists.{top};
ghost use Rattle.anti_turn.specs.Places.{IsReached, with_load, with_raise};

use crate::listed::Listed;
use crate::plays::{LookUp, MarkUp};
use crate::seat::Seat;
use crate::turn::{MARKS, Turn};

// Beside the turn stand eight marks, which only rise. They are read and raised without the turn, so nobody waits.
impl<T: Listed> Turn<T> {
    /// Raises a mark to a number that the list which the seat has seen has reached; a mark that is above it stays. The seat may have the
    /// turn or not. It takes no memory.
    pub fn raise(&self, seat: &mut Seat<T>, word: u32, n: u64)
        requires turn { seat.old.id ≡ self.now.id }
        requires word { word < 8 }
        requires under { IfSome seat.old.fixed (λ part. n ≤ T.mark part word seat.old.seen) }
        ensures { seat.new ≡ with_raise seat.old word n }
    {
        let mark = MARKS + word as usize;
        let shared = &self.table.shared;
        shared.fetch_max::<MarkUp<T>>(&mut seat.seat, mark, n);
    }

    /// What a mark is at this step: at least what the seat raised it to, and reached by the list that stands now, which goes on from what
    /// the seat has seen. The seat may have the turn or not. It takes no memory.
    pub fn load(&self, seat: &mut Seat<T>, word: u32) -> u64
        requires turn { seat.old.id ≡ self.now.id }
        requires word { word < 8 }
        ensures seat { seat.new ≡ with_load seat.old word result }
        ensures raised { top word seat.old.raised ≤ result }
        ensures reached { IsReached T.by T.mark seat.old word result }
    {
        let mark = MARKS + word as usize;
        self.table.shared.load::<LookUp<T>>(&mut seat.seat, mark)
    }
}
