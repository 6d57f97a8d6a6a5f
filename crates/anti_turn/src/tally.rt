// The least value that a turn can go round: its entries are the numbers of the seats that added them. `add` shows what a caller can say of
// its own entries, and edits which must be refused change how it is used.
ghost use Rattle.std.specs.Prelude.{◌≡◌, ◌+◌, false, length, [], ◌∷◌, ◌++◌, OnOk, OnErr};
ghost use Rattle.anti_turn.specs.inner.Tallies.{longer, own_entries};

use crate::listed::Listed;
use crate::seat::Seat;
use crate::turn::Turn;
use anti_ids::NoMemory;
use std::alloc::Global;
use std::sync::Wait;

#[derive(Drop)]
pub(crate) struct Tally {
    // It never changes.
    pub(crate) name: u32,
    pub(crate) entries: Vec<u32>,
}

impl Listed for Tally {
    type Entry = u32;

    type Fixed = u32;

    ghost list = { λ tally. tally.entries.items };

    ghost by = { λ number. number };

    ghost fixed = { λ tally. tally.name };

    // Each mark is how many entries there are.
    ghost mark = { λ _ _ entries. length entries };

    ghost rises = { λ part word xs ys. longer xs ys };
}

impl Tally {
    // No entry.
    pub(crate) fn new(alloc: Global, name: u32) -> Tally
        ensures { (result.name ≡ name) × (result.entries.items ≡ []) }
    {
        Tally {
            name,
            entries: Vec::new(alloc),
        }
    }

    // Adds an entry at the end. The only error is want of memory.
    fn note(&mut self, number: u32) -> Result<(), NoMemory>
        ensures ok { OnOk result (self.new.entries.items ≡ self.old.entries.items ++ number ∷ []) }
        ensures err { OnErr result (self.new.entries.items ≡ self.old.entries.items) }
        ensures name { self.new.name ≡ self.old.name }
    {
        self.entries.push(number)?;
        Ok(())
    }
}

// Adds an entry under the seat's number, in a turn of its own. The only error is want of memory.
pub(crate) fn add<R: Wait>(
    rt: &R,
    turn: &Turn<Tally>,
    seat: &mut Seat<Tally>,
) -> Result<(), NoMemory>
    requires turn { seat.old.id ≡ turn.now.id }
    requires free { seat.old.holds ≡ false }
    ensures seat { seat.new ≡ record seat.old {
      seen = seat.new.seen;
      visits = seat.old.visits + 1;
    } }
    ensures ok { OnOk result
        (own_entries seat.new ≡ own_entries seat.old ++ seat.old.number ∷ []) }
    ensures err { OnErr result (own_entries seat.new ≡ own_entries seat.old) }
{
    let number = seat.number();
    let mut held = turn.enter(rt, seat);
    let result = held.value.note(number);
    turn.leave(seat, held);
    result
}
