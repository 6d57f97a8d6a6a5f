ghost use Rattle.std.specs.Prelude.{OnErr, OnOk};
ghost use Rattle.anti_agenda.specs.Agendas.{IsEmpty, IsFirst, IsGone, IsIdled, IsPutToSleep, IsUnchanged, IsWoken};

use crate::awake::Awake;
use crate::offer::{Offer, Sleeper};
use crate::sleepers::Sleepers;
use anti_ids::NoMemory;
use anti_kind::Awaited;
use std::alloc::Global;

/// The offers that may make an entry (awake), those that wait for something at an object (asleep), and those that were tried in vain for
/// a cause that is not known (idle). Contracts see three lists.
pub struct Agenda {
    pub(crate) awake: Awake,
    pub(crate) asleep: Sleepers,
    pub(crate) idle: Vec<Offer>,
}

// By hand, so that no caller sees the fields.
impl Drop for Agenda {
    fn drop(self) {
        let Agenda {
            awake,
            asleep,
            idle,
        } = self;
        drop(awake);
        drop(asleep);
        drop(idle);
    }
}

impl Agenda {
    /// No offer. It takes no memory.
    pub fn new(alloc: Global) -> Agenda
        ensures { IsEmpty result }
    {
        Agenda {
            awake: Awake::new(alloc),
            asleep: Sleepers::new(alloc),
            idle: Vec::new(alloc),
        }
    }

    /// The first offer that is awake. It takes no memory.
    pub fn first(&self) -> Option<Offer>
        ensures { IsFirst self.now result }
    {
        self.awake.first()
    }

    /// Wakes an offer, which may be awake. The only error is want of memory, and then the agenda is as it was.
    pub fn wake(&mut self, offer: Offer) -> Result<(), NoMemory>
        ensures ok { OnOk result (IsWoken offer self.old self.new) }
        ensures err { OnErr result (IsUnchanged self.old self.new) }
    {
        self.awake.insert(offer)?;
        Ok(())
    }

    /// Gives up an offer that is awake. It takes no memory.
    pub fn rest(&mut self, offer: Offer)
        ensures { IsGone offer self.old self.new }
    {
        self.awake.remove(offer);
    }

    /// Puts an offer that is awake to sleep, until what it awaits at the object is brought. The only error is want of memory,
    /// and then the agenda is as it was.
    pub fn sleep(&mut self, offer: Offer, object: u32, awaited: Awaited) -> Result<(), NoMemory>
        ensures ok { OnOk result (IsPutToSleep offer object awaited self.old self.new) }
        ensures err { OnErr result (IsUnchanged self.old self.new) }
    {
        self.asleep.insert(Sleeper {
            object,
            awaited,
            offer,
        })?;
        self.rest(offer);
        Ok(())
    }

    /// Makes an offer that is awake idle, until anything is made. The only error is want of memory, and then the agenda
    /// is as it was.
    pub fn idle(&mut self, offer: Offer) -> Result<(), NoMemory>
        ensures ok { OnOk result (IsIdled offer self.old self.new) }
        ensures err { OnErr result (IsUnchanged self.old self.new) }
    {
        self.idle.push(offer)?;
        self.rest(offer);
        Ok(())
    }
}
