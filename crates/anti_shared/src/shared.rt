ghost use Rattle.std.specs.Prelude.{◌≡◌, ◌-◌, ◌<◌, ◌↔◌, true, [], IfOk, IfErr, IsOk, IsTrue, OnErr, Some};
ghost use Rattle.anti_kind.specs.Machines.{StandsFor};
ghost use Rattle.anti_kind.specs.Lones.{IsNumbered};
ghost use Rattle.anti_shared.specs.Passes.{IsClosed, IsJoined, IsSplit, first_pass, with_count, with_room};

use crate::kept::Kept;
use crate::marking::raise_to;
use crate::pass::Pass;
use anti_ids::{MOST_REGIONS, NoMemory};
use anti_kind::Machine;
use anti_turn::Turn;
use std::alloc::Global;
use std::marker::Model;

/// An object that threads share. Of the threads one at a time has the turn, and the object with it.
pub struct Shared<M: Machine> {
    pub(crate) turn: Turn<Kept<M>>,
    pub(crate) object: u32,
}

impl<M: Machine> Model for Shared<M> {
    ghost use Rattle.std.specs.Prelude.{◌≡◌};
    ghost use Rattle.anti_shared.specs.Passes.{SharedView};
    ghost use Rattle.anti_shared.specs.inner.Seating.{shared_of};

    ghost Value = { SharedView M };

    ghost view = { λ s. shared_of s.turn };

    ghost invariant = { λ s. s.object ≡ s.turn.fixed.0 };
}

// By hand, so that no caller sees the fields.
impl<M: Machine + Drop> Drop for Shared<M> {
    fn drop(self) {
        let Shared { turn, object: _ } = self;
        drop(turn);
    }
}

impl<M: Machine> Shared<M> {
    /// Shares the object of this number, which is at its start: no call was made on it. Beside it comes the first pass, whose room is
    /// 2^32 - 2. The start is given back where there is no memory.
    pub fn new(alloc: Global, object: u32, start: M) -> Result<(Shared<M>, Pass<M>), (M, NoMemory)>
        requires fresh { StandsFor (M.start start) (M.Stands start) [] }
        requires numbered { IsNumbered (M.start start) object }
        ensures object { IfOk result (λ made. made.0.id.object ≡ object) }
        ensures first { IfOk result (λ made. made.0.id.first ≡ Some start) }
        ensures pass { IfOk result (λ made. made.1 ≡ first_pass made.0.id) }
        ensures err { IfErr result (λ refused. refused.0 ≡ start) }
    {
        let kept = match Kept::new(alloc, object, start) {
            Ok(kept) => kept,
            Err(refused) => return Err(refused),
        };
        match Turn::new(alloc, kept) {
            Ok((turn, seat)) => {
                let raised = [0; MOST_REGIONS];
                Ok((Shared { turn, object }, Pass { seat, raised }))
            }
            Err((kept, fault)) => {
                let (start, _history) = kept.into_parts();
                Err((start, fault))
            }
        }
    }

    /// Makes a further pass, with a number that no other has, and half of the room that is left, rounded down. It uses up one of the room.
    /// The error is want of memory, which never comes: the call takes none.
    pub fn split(&self, pass: &mut Pass<M>) -> Result<Pass<M>, NoMemory>
        requires of { pass.old.id ≡ self.now.id }
        requires room { 0 < pass.old.room }
        ensures ok { IfOk result (λ new. IsSplit pass.old pass.new new) }
        ensures err { OnErr result (pass.new ≡ with_room pass.old (pass.old.room - 1)) }
        ensures never_err { IsOk result }
    {
        let seat = self.turn.split(&mut pass.seat)?;
        let raised = pass.raised;
        Ok(Pass { seat, raised })
    }

    /// Gives up the pass `from`. What it had seen, its calls and its room go to `into`. It takes no memory.
    pub fn join(&self, into: &mut Pass<M>, from: Pass<M>)
        requires into_of { into.old.id ≡ self.now.id }
        requires from_of { from.id ≡ self.now.id }
        ensures { IsJoined into.old from into.new }
    {
        let Pass { seat, raised } = from;
        self.turn.join(&mut into.seat, seat);
        raise_to(&mut into.raised, &raised);
    }

    /// Whether no other pass is out at this step. A pass is out from the step of its split that counts it in to the step of its join that
    /// counts it out. After `true`, and until this pass is split, `close` is not refused. It takes no memory.
    pub fn alone(&self, pass: &mut Pass<M>) -> bool
        requires { pass.old.id ≡ self.now.id }
        ensures pass { pass.new ≡ with_count pass.old pass.new.out }
        ensures some { 0 < pass.new.out }
        ensures answer { IsTrue result ↔ (pass.new.out ≡ 1) }
        ensures noted { pass.new.alone ≡ result }
        ensures still { pass.old.alone ≡ true → result ≡ true }
    {
        self.turn.alone(&mut pass.seat)
    }

    /// Gives the object out, with the history that the pass has seen. Refused exactly where another pass was made and not joined: the
    /// shared object comes back as it was, and the pass, which has asked once more.
    pub fn close(self, pass: Pass<M>) -> Result<Kept<M>, (Shared<M>, Pass<M>)>
        requires { pass.id ≡ self.id }
        ensures ok { IfOk result (λ kept. IsClosed M.start pass kept) }
        ensures shared { IfErr result (λ back. back.0 ≡ self) }
        ensures pass { IfErr result (λ back. back.1 ≡ with_count pass back.1.out) }
        ensures refused { IfErr result (λ back. 1 < back.1.out) }
        ensures alone { pass.alone ≡ true → IsOk result }
    {
        let Shared { turn, object } = self;
        let Pass { seat, raised } = pass;
        match turn.close(seat) {
            Ok(kept) => Ok(kept),
            Err((turn, seat)) => Err((Shared { turn, object }, Pass { seat, raised })),
        }
    }
}
