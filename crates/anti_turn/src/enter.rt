ghost use Rattle.std.specs.Prelude.{◌≡◌, ℕ, ◌≤◌, true, false, Some};
ghost use Rattle.anti_turn.specs.Lists.{Adds, GoesOn, top};
ghost use Rattle.anti_turn.specs.Places.{numbers_of, with_turn, without_turn};
ghost use Rattle.anti_turn.specs.inner.Views.{IsAtRest};
ghost use Rattle.anti_turn.specs.inner.Steps.{Takes};

use crate::listed::Listed;
use crate::plays::{Await, Free, Take};
use crate::seat::Seat;
use crate::turn::{FREE, Held, TAKEN, TURN, Turn, VALUE, WAITED};
use crate::view::View;
use std::sync::Wait;

impl<T: Listed> Turn<T> {
    /// Waits for the turn, and takes it with the value. The list of the value goes on from what the seat had seen, with no further entry
    /// of the seat's own, and has got as far as each mark that the seat loaded. It takes no memory.
    pub fn enter<R: Wait>(&self, rt: &R, seat: &mut Seat<T>) -> Held<T>
        requires turn { seat.old.id ≡ self.now.id }
        requires free { seat.old.holds ≡ false }
        ensures seat { seat.new ≡ with_turn seat.old (T.list result.value) }
        ensures list { GoesOn T.by (numbers_of seat.old) seat.old.seen (T.list result.value) }
        ensures fixed { seat.old.fixed ≡ Some (T.fixed result.value) }
        ensures loaded { (word : ℕ) → top word seat.old.loaded ≤ T.mark (T.fixed result.value) word (T.list result.value) }
    {
        self.take(rt, &mut seat.seat);
        let slot = self.table.shared.exchange(&mut seat.seat, VALUE, None);
        // by `Takes` of `take`
        let Some(value) = slot else { unreachable!() };
        Held { value }
    }

    // Waits until the turn is free, and takes it. The value still lies in its slot, which is the seat's now.
    fn take<R: Wait>(
        &self,
        rt: &R,
        seat: &mut atomic_table::Seat<Option<T>, View<T::Entry, T::Fixed>>,
    )
        requires turn { seat.old.table_id ≡ self.now.id }
        requires rest { IsAtRest seat.old.me.0 }
        ensures turn { seat.new.table_id ≡ seat.old.table_id }
        ensures taken { Takes T.list T.by T.fixed T.mark seat.old.me seat.new.me }
    {
        let shared = &self.table.shared;
        if shared.compare_exchange::<Take<T>>(seat, TURN, FREE, TAKEN) == FREE {
            return;
        }
        // No wake-up is lost. `park` falls asleep only if the word is WAITED at that moment. Then nothing but a `leave` changes the word,
        // and that one wakes a thread. Who wakes writes WAITED again, and so has the turn as WAITED, since others may sleep too: the next
        // `leave` wakes one.
        for _ in rt.forever() {
            if shared.swap::<Await<T>>(seat, TURN, WAITED) == FREE {
                return;
            }
            shared.park(rt, TURN, WAITED as u32);
        }
        // `forever` does not end
        unreachable!()
    }

    /// Gives the value and the turn back. The list may have further entries, all of the seat's number. It takes no memory.
    pub fn leave(&self, seat: &mut Seat<T>, held: Held<T>)
        requires turn { seat.old.id ≡ self.now.id }
        requires holds { seat.old.holds ≡ true }
        requires list { Adds T.by seat.old.number seat.old.seen (T.list held.value) }
        requires fixed { seat.old.fixed ≡ Some (T.fixed held.value) }
        ensures { seat.new ≡ without_turn seat.old (T.list held.value) }
    {
        let Held { value } = held;
        let shared = &self.table.shared;
        let nothing = shared.exchange(&mut seat.seat, VALUE, Some(value));
        // `enter` moved the value out of the slot (`Sits`)
        let None = nothing else { unreachable!() };
        if shared.swap::<Free<T>>(&mut seat.seat, TURN, FREE) == WAITED {
            shared.wake_one(TURN);
        }
    }
}
