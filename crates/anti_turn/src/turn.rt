ghost use Rattle.std.specs.Prelude.{◌≡◌, [], ◌∷◌, IfOk, IfErr};
ghost use Rattle.anti_turn.specs.Places.{first_seat};

use crate::listed::Listed;
use crate::rule::Law;
use crate::seat::Seat;
use crate::view::View;
use anti_ids::NoMemory;
use atomic_table::{Refused, Table};
use std::alloc::Global;
use std::marker::Model;
use std::snapshot::Snapshot;

// The words: the turn, the count of seats, and the marks from the third on.
pub(crate) const TURN: usize = 0;

pub(crate) const SEATS: usize = 1;

pub(crate) const MARKS: usize = 2;

// The slot of the value.
pub(crate) const VALUE: usize = 0;

// The word of the turn. A seat has the turn where it is not `FREE`.
pub(crate) const FREE: u64 = 0;

pub(crate) const TAKEN: u64 = 1;

// A seat has it, and threads may sleep until it is free.
pub(crate) const WAITED: u64 = 2;

// In the upper half of the count stands how many seats were made, in the lower how many are out. A seat more is one more of both.
pub(crate) const MADE: u64 = 1 << 32;

pub(crate) const ONE_MORE: u64 = MADE + 1;

// All numbers of seats but 0, of which the first seat has one.
const FIRST_ROOM: u64 = MADE - 2;

/// A turn round a value. One seat at a time has the turn, and the value with it.
#[derive(Drop)]
pub struct Turn<T: Listed> {
    pub(crate) table: Table<Option<T>, View<T::Entry, T::Fixed>, Snapshot<T>, Law<T>, Global>,
}

impl<T: Listed> Model for Turn<T> {
    ghost use Rattle.std.specs.Prelude.{◌≡◌};
    ghost use Rattle.anti_turn.specs.Places.{Round};

    ghost Value = { Round T.Fixed };

    ghost view = { λ t. record {
      id = t.table.shared.table_id;
      fixed = T.fixed t.table.shared.key.value;
    } };

    ghost invariant = { λ t.
        (t.table.shared.table_id.words ≡ 10) × (t.table.shared.table_id.slots ≡ 1) };
}

/// The value, in the hands of the seat that has the turn. Who has it may change it, and gives it back by `Turn::leave`.
pub struct Held<T> {
    /// It stands for the list that the seat found, until it is changed.
    pub value: T,
}

impl<T: Listed> Turn<T> {
    /// A turn round a value that stands for the empty list, and its first seat, whose room is 2^32 - 2. The only error is want of memory,
    /// and the value comes back.
    pub fn new(alloc: Global, value: T) -> Result<(Turn<T>, Seat<T>), (T, NoMemory)>
        requires { T.list value ≡ [] }
        ensures turn { IfOk result (λ made. made.0.fixed ≡ T.fixed value) }
        ensures seat { IfOk result (λ made. made.1 ≡ first_seat made.0.id (T.fixed value)) }
        ensures err { IfErr result (λ refused. refused.0 ≡ value) }
    {
        let key = Snapshot::of(&value);
        let mut slots = Vec::new(alloc);
        if slots.reserve(1).is_err() {
            slots.destroy_empty();
            return Err((value, NoMemory));
        }
        slots.push_reserved(Some(value));
        match Table::new(
            alloc,
            &[FREE, ONE_MORE, 0, 0, 0, 0, 0, 0, 0, 0],
            slots,
            &key,
        ) {
            Ok((table, seat)) => {
                let first = Seat {
                    seat,
                    room: FIRST_ROOM,
                    number: 1,
                };
                Ok((Turn { table }, first))
            }
            Err(Refused { slots }) => Err((taken_back(slots), NoMemory)),
        }
    }
}

// The value that was to lie in the slot.
fn taken_back<T>(mut slots: Vec<Option<T>>) -> T
    requires { (x : T) × (slots.items ≡ Some x ∷ []) }
    ensures { slots.items ≡ Some result ∷ [] }
{
    let last = slots.pop();
    slots.destroy_empty();
    // both by the `requires`
    let Some(slot) = last else { unreachable!() };
    let Some(value) = slot else { unreachable!() };
    value
}
