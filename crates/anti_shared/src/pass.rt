ghost use Rattle.std.specs.Prelude.{◌≡◌, ◌<◌, ◌≤◌};
ghost use Rattle.anti_shared.specs.Passes.{IsPass};

use crate::kept::Kept;
use anti_ids::MOST_REGIONS;
use anti_kind::Machine;
use anti_turn::Seat;
use std::marker::Model;

/// What a thread carries to call on a shared object. It can be sent to another thread. A pass that is dropped counts as out for ever.
#[derive(Drop)]
pub struct Pass<M: Machine> {
    pub(crate) seat: Seat<Kept<M>>,
    // to what it raised the mark of each region
    pub(crate) raised: [u64; MOST_REGIONS],
}

impl<M: Machine> Model for Pass<M> {
    ghost use Rattle.anti_shared.specs.Passes.{PassView};
    ghost use Rattle.anti_shared.specs.inner.Seating.{pass_of, IsSeated};

    ghost Value = { PassView M };

    ghost view = { λ p. pass_of p.seat };

    ghost invariant = { λ p. IsSeated M.start p.seat p.raised };
}

impl<M: Machine> Pass<M> {
    /// How many passes can still be made from this one, those that are made from these included: at most 2^32 - 2. It takes no memory.
    pub fn room(&self) -> u64
        ensures is { result ≡ self.now.room }
        ensures most { result ≤ 4294967294 }
    {
        self.seat.room()
    }

    /// The pass's number, under which its entries stand: at least 1, and 1 for the first pass. It takes no memory.
    pub fn number(&self) -> u32
        ensures is { result ≡ self.now.number }
        ensures positive { 0 < result }
        ensures knows { IsPass M.start self.now }
    {
        self.seat.number()
    }
}
