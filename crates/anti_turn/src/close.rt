ghost use Rattle.std.specs.Prelude.{◌≡◌, ℕ, ◌<◌, ◌≤◌, ◌↔◌, true, false, IfOk, IfErr, IsOk, IsTrue};
ghost use Rattle.anti_turn.specs.Lists.{top};
ghost use Rattle.anti_turn.specs.Places.{IsClosed, with_count};

use crate::listed::Listed;
use crate::plays::Count;
use crate::seat::Seat;
use crate::turn::{MADE, SEATS, Turn, VALUE};

// The count where no other seat is out.
const ALONE: u64 = 1;

impl<T: Listed> Turn<T> {
    // How many seats are out at this step.
    fn count(&self, seat: &mut Seat<T>) -> u64
        requires { seat.old.id ≡ self.now.id }
        ensures seat { seat.new ≡ with_count seat.old result }
        ensures some { 0 < result }
        ensures alone { seat.old.alone ≡ true → result ≡ 1 }
    {
        self.table.shared.load::<Count<T>>(&mut seat.seat, SEATS) % MADE
    }

    /// Whether no other seat is out at this step, which is one load of the count of seats. A seat is out from the step that counts it in to
    /// the step that counts it out, behind its join. After `true`, and until this seat is split, `close` is not refused. It takes no memory.
    pub fn alone(&self, seat: &mut Seat<T>) -> bool
        requires { seat.old.id ≡ self.now.id }
        ensures seat { seat.new ≡ with_count seat.old seat.new.out }
        ensures some { 0 < seat.new.out }
        ensures answer { IsTrue result ↔ (seat.new.out ≡ 1) }
        ensures noted { seat.new.alone ≡ result }
        ensures still { seat.old.alone ≡ true → result ≡ true }
    {
        self.count(seat) == ALONE
    }

    /// Gives the value out of the turn, with the list that the seat has seen. Refused exactly where another seat was made and not joined:
    /// the turn comes back as it was, and the seat, which has asked once more.
    pub fn close(self, mut seat: Seat<T>) -> Result<T, (Turn<T>, Seat<T>)>
        requires turn { seat.id ≡ self.id }
        requires free { seat.holds ≡ false }
        ensures ok { IfOk result (λ value. IsClosed T.list T.by T.fixed seat value) }
        ensures loaded { IfOk result (λ value. (word : ℕ) → top word seat.loaded ≤ T.mark (T.fixed value) word (T.list value)) }
        ensures turn { IfErr result (λ back. back.0 ≡ self) }
        ensures seat { IfErr result (λ back. back.1 ≡ with_count seat back.1.out) }
        ensures refused { IfErr result (λ back. 1 < back.1.out) }
        ensures alone { seat.alone ≡ true → IsOk result }
    {
        if self.count(&mut seat) != ALONE {
            return Err((self, seat));
        }
        let Turn { table } = self;
        let (seat, _room) = seat.into_parts();
        let mut closed = table.close_with(seat);
        let slot = closed.take(VALUE);
        closed.free();
        // no seat has the turn, and then the value lies in its slot (`Fits`)
        let Some(value) = slot else { unreachable!() };
        Ok(value)
    }
}
