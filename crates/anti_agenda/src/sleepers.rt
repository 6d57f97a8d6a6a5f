ghost use Rattle.std.specs.Prelude.{◌≡◌, ◌<◌, ◌⊎◌, ◌↔◌, Contains, Some, length, OnErr, OnOk, IsTrue};
ghost use Rattle.std.specs.BTreeSet.{IsEmpty, keys};
ghost use Rattle.anti_agenda.specs.declared.offer.Sleeper.{Sleeper as Sleeping};
ghost use Rattle.anti_agenda.specs.inner.Waking.{IsOneWaiting, NoneWaits, brings, first_brought};

use crate::marks::Marks;
use crate::offer::{Offer, Sleeper};
use anti_ids::NoMemory;
use anti_kind::{Awaited, Brought};
use std::alloc::Global;
use std::collections::BTreeSet;
use std::marker::Model;

// The first of all offers.
const FIRST: Offer = Offer::Go { object: 0, at: 0 };

/// Those who sleep, in their order, and for what somebody ever slept at which object: mostly nobody did for what an entry brings, and
/// then nobody is looked for. Contracts see the set of them.
#[derive(Drop)]
pub(crate) struct Sleepers {
    set: BTreeSet<Sleeper>,
    marks: Marks,
}

impl Model for Sleepers {
    ghost use Rattle.std.specs.BTreeSet.{BTreeSet as Seen};
    ghost use Rattle.anti_agenda.specs.declared.offer.Sleeper.{Sleeper as Sleeping};
    ghost use Rattle.anti_agenda.specs.inner.Marking.{AreMarked};

    ghost Value = { Seen Sleeping };

    ghost view = { λ s. s.set };

    ghost invariant = { λ s. AreMarked s.set s.marks };
}

// Whether what is brought is what is awaited, or a later version of it. That a shipment may be handed out is not looked at.
fn brings(brought: Brought, awaited: Awaited) -> bool
    ensures { result ≡ brings brought awaited }
{
    match (brought, awaited) {
        (Brought::Delivered, Awaited::Delivery) => true,
        (Brought::Answered(to), Awaited::Reply(number)) => to == number,
        (Brought::Written, Awaited::Writing) => true,
        (
            Brought::Shipped { region, version },
            Awaited::Version {
                region: at,
                version: awaited,
            },
        ) => region == at && awaited <= version,
        (Brought::HandedBack, Awaited::Handout(_)) => true,
        _ => false,
    }
}

// The first of what it brings, in the order of sleepers.
fn first_brought(brought: Brought) -> Option<Awaited>
    ensures { result ≡ first_brought brought }
{
    match brought {
        Brought::Nothing => None,
        Brought::Delivered => Some(Awaited::Delivery),
        Brought::Answered(to) => Some(Awaited::Reply(to)),
        Brought::Written => Some(Awaited::Writing),
        Brought::Shipped { region, .. } => Some(Awaited::Version { region, version: 0 }),
        Brought::HandedBack => Some(Awaited::Handout(0)),
    }
}

impl Sleepers {
    /// Nobody. It takes no memory.
    pub(crate) fn new(alloc: Global) -> Sleepers
        ensures { IsEmpty result }
    {
        Sleepers {
            set: BTreeSet::new(alloc),
            marks: Marks::new(),
        }
    }

    /// Adds one, who may sleep. The only error is want of memory, and then all are as they were.
    pub(crate) fn insert(&mut self, one: Sleeper) -> Result<(), NoMemory>
        ensures more { OnOk result ((other : Sleeping) → Contains (keys self.new) other
            ↔ ((other ≡ one) ⊎ Contains (keys self.old) other)) }
        ensures err { OnErr result (keys self.new ≡ keys self.old) }
    {
        self.set.insert(one)?;
        self.marks.set(one.object, one.awaited);
        Ok(())
    }

    /// Takes one out. It takes no memory.
    pub(crate) fn remove(&mut self, one: Sleeper)
        ensures others { (other : Sleeping) → Contains (keys self.new) other
            ↔ (Contains (keys self.old) other × (other ≡ one → ⊥)) }
        ensures fewer { Contains (keys self.old) one → length (keys self.new) < length (keys self.old) }
    {
        self.set.remove(&one);
    }

    // The first who sleeps at the object for what is brought, of which this is the first. All of them stand one behind another.
    fn first_from(&self, object: u32, brought: Brought, first: Awaited) -> Option<Sleeper>
        requires { first_brought brought ≡ Some first }
        ensures { IsOneWaiting object brought self.now result }
    {
        let least = Sleeper {
            object,
            awaited: first,
            offer: FIRST,
        };
        let sleeper = *self.set.range(least..).next()?;
        if sleeper.object == object && brings(brought, sleeper.awaited) {
            Some(sleeper)
        } else {
            None
        }
    }

    /// Whether nobody was ever put to sleep at the object for such a thing as is brought. It takes no memory.
    pub(crate) fn has_none_for(&self, object: u32, brought: Brought) -> bool
        ensures { IsTrue result → NoneWaits object brought self.now }
    {
        let Some(first) = first_brought(brought) else {
            return true;
        };
        if self.marks.has(object, first) {
            return false;
        }
        true
    }

    /// The first who sleeps at the object for what is brought. It takes no memory.
    pub(crate) fn one_waiting(&self, object: u32, brought: Brought) -> Option<Sleeper>
        ensures { IsOneWaiting object brought self.now result }
    {
        let first = first_brought(brought)?;
        self.first_from(object, brought, first)
    }
}
