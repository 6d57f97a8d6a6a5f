ghost use Rattle.std.specs.Prelude.{◌≡◌, [], ◌<◌, false, None, IfOk, IfErr, IfNone, IfSome};
ghost use Rattle.anti_kind.specs.Objects.{IsLegal};
ghost use Rattle.anti_kind.specs.Shipments.{IsShip, upto};
ghost use Rattle.anti_kind.specs.Machines.{StandsFor};
ghost use Rattle.anti_kind.specs.Lones.{IsNumbered};
ghost use Rattle.anti_kind.specs.Records.{Gives};
ghost use Rattle.anti_shared.specs.inner.Keeping.{AreOf};
ghost use Rattle.anti_shared.specs.inner.Marks.{AreOver, AreRisen, AreUpto};

use anti_ids::{MOST_REGIONS, NoMemory};
use anti_kind::{Answer, Asking, Entry, History, Machine, Recorded, Refusal};
use anti_turn::Listed;
use std::alloc::{AllocFailed, Global};
use std::marker::Model;
use std::snapshot::Snapshot;

/// An object that was shared: its state, and the history of the calls that were made on it.
pub struct Kept<M: Machine> {
    object: u32,
    // in a box, so that it stays where it is while it is handed to and fro with the turn
    recorded: Box<Recorded<M>>,
    first: Snapshot<M>,
}

impl<M: Machine> Model for Kept<M> {
    ghost use Rattle.anti_shared.specs.Passes.{KeptView};
    ghost use Rattle.anti_shared.specs.inner.Keeping.{IsKept};

    ghost Value = { KeptView M };

    ghost view = { λ k. record {
      object = k.object;
      first = k.first.value;
      state = k.recorded.value.machine;
      history = k.recorded.value.history;
    } };

    ghost invariant = { λ k. IsKept (M.start k.recorded.value.machine) (M.start k.first.value) k.object k.recorded.value.history };
}

// By hand, so that no caller sees the fields.
impl<M: Machine + Drop> Drop for Kept<M> {
    fn drop(self) {
        let Kept {
            object: _,
            recorded,
            first,
        } = self;
        drop(recorded);
        drop(first);
    }
}

impl<M: Machine> Listed for Kept<M> {
    ghost use Rattle.anti_kind.specs.Shipments.{upto};
    ghost use Rattle.anti_shared.specs.inner.Reaching.{upto_rises};

    type Entry = Entry;

    type Fixed = (u32, M);

    ghost list = { λ kept. kept.history };

    ghost by = { λ entry. entry.seat };

    ghost fixed = { λ kept. (kept.object, kept.first) };

    // Each mark is how many versions, from the first on, are whole at a region.
    ghost mark = { λ part region history. upto (M.start part.1) history region };

    ghost rises = { λ part region history more. upto_rises (M.start part.1) region history more };
}

impl<M: Machine> Kept<M> {
    // The object of this number, at its start. The start is given back where there is no memory.
    pub(crate) fn new(alloc: Global, object: u32, start: M) -> Result<Kept<M>, (M, NoMemory)>
        requires fresh { StandsFor (M.start start) (M.Stands start) [] }
        requires numbered { IsNumbered (M.start start) object }
        ensures ok { IfOk result (λ k. k ≡ record { object = object; first = start; state = start; history = [] }) }
        ensures err { IfErr result (λ e. e.0 ≡ start) }
    {
        let first = Snapshot::of(&start);
        let recorded = match Recorded::new(alloc, start) {
            Ok(recorded) => recorded,
            Err(refused) => return Err(refused),
        };
        match Box::new(alloc, recorded) {
            Ok(recorded) => Ok(Kept {
                object,
                recorded,
                first,
            }),
            Err(AllocFailed { value }) => {
                let (start, _history) = value.into_parts();
                Err((start, NoMemory))
            }
        }
    }

    /// The state, which stands for the history. It takes no memory.
    pub fn state(&self) -> &M
        ensures state { result.now ≡ self.now.state }
        ensures stands { StandsFor (M.start self.now.state) (M.Stands self.now.state) self.now.history }
        ensures start { M.start self.now.state ≡ M.start self.now.first }
    {
        self.recorded.machine()
    }

    /// The calls that were made on the object. It takes no memory.
    pub fn history(&self) -> &History
        ensures items { result.now.items ≡ self.now.history }
        ensures legal { IsLegal (M.start self.now.first) self.now.history }
        ensures own { AreOf self.now.object self.now.history }
        ensures numbered { IsNumbered (M.start self.now.first) self.now.object }
    {
        self.recorded.history()
    }

    /// The state and the calls that were made. It takes no memory.
    pub fn into_parts(self) -> (M, History)
        ensures state { result.0 ≡ self.state }
        ensures history { result.1.items ≡ self.history }
    {
        let Kept {
            object: _,
            recorded,
            first,
        } = self;
        drop(first);
        Box::into_inner(recorded).into_parts()
    }

    // Makes what is asked of the object, under the number of the pass that asks, or says why it does not. What is not ready is put into
    // `waiting`: in a result it would be moved with each answer.
    pub(crate) fn offer(
        &mut self,
        seat: u32,
        asking: Asking,
        waiting: &mut Option<Asking>,
    ) -> Answer
        requires object { asking.object ≡ self.old.object }
        requires none { waiting.old ≡ None }
        ensures gives { Gives (M.start self.old.first) self.old.history seat asking self.new.history result }
        ensures waits { IfNone waiting.new (result ≡ Answer.Refused Refusal.NotYet → ⊥) }
        ensures back { IfSome waiting.new (λ back. (back ≡ asking) × (result ≡ Answer.Refused Refusal.NotYet)) }
        ensures object { self.new.object ≡ self.old.object }
        ensures first { self.new.first ≡ self.old.first }
        ensures before { IsLegal (M.start self.old.first) self.old.history }
        ensures after { IsLegal (M.start self.old.first) self.new.history }
        ensures ship { IsShip asking.call → result ≡ Answer.NoMemory → ⊥ }
    {
        match self.recorded.offer(seat, asking) {
            Ok(answer) => answer,
            Err(back) => {
                *waiting = Some(back);
                Answer::Refused(Refusal::NotYet)
            }
        }
    }

    // How many versions, from the first on, are whole at a region.
    fn whole_at(&self, region: usize) -> u64
        requires { region < MOST_REGIONS }
        ensures { result ≡ upto (M.start self.now.first) self.now.history region }
    {
        self.state().upto(region as u32)
    }

    // Whether a region has more than is known.
    fn has_risen(&self, known: &[u64; MOST_REGIONS]) -> bool
        ensures { result ≡ false → AreOver (M.start self.now.first) self.now.history known.now }
    {
        for region in 0..MOST_REGIONS {
            if self.whole_at(region) > known[region] {
                return true;
            }
        }
        false
    }

    // How many versions, from the first on, are whole at each region.
    fn reached(&self) -> [u64; MOST_REGIONS]
        ensures { AreUpto (M.start self.now.first) self.now.history result }
    {
        let mut reached = [0; MOST_REGIONS];
        for region in 0..MOST_REGIONS {
            reached[region] = self.whole_at(region);
        }
        reached
    }

    // How many versions, from the first on, are whole at each region, or `None` where no region has more than is known. The numbers are
    // compared where they stand, since that is done under the turn and mostly none has risen.
    pub(crate) fn risen(&self, known: &[u64; MOST_REGIONS]) -> Option<[u64; MOST_REGIONS]>
        ensures { AreRisen (M.start self.now.first) self.now.history known.now result }
    {
        if self.has_risen(known) {
            return Some(self.reached());
        }
        None
    }
}
