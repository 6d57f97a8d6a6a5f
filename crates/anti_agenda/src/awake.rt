ghost use Rattle.std.specs.Prelude.{◌≡◌, ◌<◌, ◌⊎◌, ◌↔◌, Contains, None, Some, length, OnErr, OnOk, IsTrue};
ghost use Rattle.std.specs.BTreeSet.{IsEmpty, keys};
ghost use Rattle.anti_agenda.specs.declared.offer.Offer.{Offer as Offered};
ghost use Rattle.anti_agenda.specs.inner.Front.{IsBeforeEach, IsPlaced};
ghost use Rattle.anti_agenda.specs.inner.Waking.{IsFirstOf};

use crate::offer::Offer;
use anti_ids::NoMemory;
use std::alloc::Global;
use std::cmp::Ordering;
use std::collections::BTreeSet;
use std::marker::Model;

/// Those who are awake, in their order. The first of them may stand before the set of the others: mostly it is a process that was born,
/// goes on and ends while these stay as they are. Contracts see the set of all.
#[derive(Drop)]
pub(crate) struct Awake {
    first: Option<Offer>,
    others: BTreeSet<Offer>,
}

impl Model for Awake {
    ghost use Rattle.std.specs.BTreeSet.{BTreeSet as Seen};
    ghost use Rattle.anti_agenda.specs.declared.offer.Offer.{Offer as Offered};
    ghost use Rattle.anti_agenda.specs.inner.Front.{IsBeforeEach, with_first};

    ghost Value = { Seen Offered };

    ghost view = { λ a. with_first a.first a.others };

    ghost invariant = { λ a. IsBeforeEach a.first a.others };
}

// Whether it is this one.
fn is_one(first: Option<Offer>, offer: Offer) -> bool
    ensures { IsTrue result ↔ (first ≡ Some offer) }
{
    match first {
        Some(first) => first == offer,
        None => false,
    }
}

// Who stands before the others once an offer is awake with them, before whom nobody stands yet, and who is one of them then.
fn placed_alone(offer: Offer, others: &BTreeSet<Offer>) -> (Option<Offer>, Option<Offer>)
    ensures { IsPlaced None offer others.now result.0 result.1 }
{
    let Some(least) = others.first() else {
        return (Some(offer), None);
    };
    match offer.cmp(least) {
        Ordering::Less => (Some(offer), None),
        _ => (None, Some(offer)),
    }
}

// The same where somebody may stand before them.
fn placed(
    first: Option<Offer>,
    offer: Offer,
    others: &BTreeSet<Offer>,
) -> (Option<Offer>, Option<Offer>)
    requires { IsBeforeEach first others.now }
    ensures { IsPlaced first offer others.now result.0 result.1 }
{
    let Some(first) = first else {
        return placed_alone(offer, others);
    };
    match offer.cmp(&first) {
        Ordering::Less => (Some(offer), Some(first)),
        Ordering::Equal => (Some(first), None),
        Ordering::Greater => (Some(first), Some(offer)),
    }
}

// Adds one, where there is one, to the others.
fn add(others: &mut BTreeSet<Offer>, behind: Option<Offer>) -> Result<(), NoMemory>
    ensures more { OnOk result ((other : Offered) → Contains (keys others.new) other
        ↔ ((behind ≡ Some other) ⊎ Contains (keys others.old) other)) }
    ensures err { OnErr result (keys others.new ≡ keys others.old) }
{
    let Some(behind) = behind else {
        return Ok(());
    };
    others.insert(behind)?;
    Ok(())
}

impl Awake {
    /// Nobody. It takes no memory.
    pub(crate) fn new(alloc: Global) -> Awake
        ensures { IsEmpty result }
    {
        Awake {
            first: None,
            others: BTreeSet::new(alloc),
        }
    }

    /// The first of all. It takes no memory.
    pub(crate) fn first(&self) -> Option<Offer>
        ensures { IsFirstOf self.now result }
    {
        match self.first {
            Some(first) => Some(first),
            None => self.others.first().copied(),
        }
    }

    /// Adds one, who may be awake. The only error is want of memory, and then all are as they were.
    pub(crate) fn insert(&mut self, offer: Offer) -> Result<(), NoMemory>
        ensures more { OnOk result ((other : Offered) → Contains (keys self.new) other
            ↔ ((other ≡ offer) ⊎ Contains (keys self.old) other)) }
        ensures err { OnErr result (keys self.new ≡ keys self.old) }
    {
        let (front, behind) = placed(self.first, offer, &self.others);
        add(&mut self.others, behind)?;
        self.first = front;
        Ok(())
    }

    /// Takes one out. It takes no memory.
    pub(crate) fn remove(&mut self, offer: Offer)
        ensures others { (other : Offered) → Contains (keys self.new) other
            ↔ (Contains (keys self.old) other × (other ≡ offer → ⊥)) }
        ensures fewer { Contains (keys self.old) offer → length (keys self.new) < length (keys self.old) }
    {
        if is_one(self.first, offer) {
            self.first = None;
            return;
        }
        self.others.remove(&offer);
    }
}
