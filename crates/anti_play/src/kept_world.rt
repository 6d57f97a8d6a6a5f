ghost use Rattle.std.specs.Prelude.{◌≡◌, ◌<◌, ◌∷◌, [], All, length, map, IfOk, OnOk, IsTrue};
ghost use Rattle.anti_app.specs.Sound.{is_sound};
ghost use Rattle.anti_kind.specs.declared.actor.Actor.TheVariants.{Carrier};
ghost use Rattle.anti_kind.specs.Objects.{last_stamp};
ghost use Rattle.anti_object.specs.Standing.{ObjectAt};
ghost use Rattle.anti_trace.specs.Histories.{Entries};
ghost use Rattle.anti_trace.specs.Legal.{IsLegalTrace};
ghost use Rattle.anti_trace.specs.Traces.{IsTrace, entries_by};
ghost use Rattle.anti_play.specs.inner.Kepts.{AreBack, AreBare, AreKept, HasHistories, IsBackAt, at_last, bare, taken};
ghost use Rattle.anti_play.specs.inner.Standing.{WorldStands};

use crate::first_world::{add, keep_with};
use crate::reading::has_reads;
use crate::world::World;
use anti_app::App;
use anti_ids::{List, NoMemory};
use anti_kind::{Actor, Entry, History, Recorded};
use anti_object::{Kepts, Object};
use anti_trace::{Going, Histories, Trace, is_by, merge};
use std::alloc::Global;

impl World {
    /// The world of objects that were closed: one pair for each object of the application, in the order of their numbers. It stands for the
    /// trace that their histories make, and one walk along that plays the processes. Each entry is moved twice, and none is copied.
    pub fn of(alloc: Global, app: &App, kept: Kepts) -> Result<World, NoMemory>
        requires sound { IsTrue (is_sound app.now) }
        requires objects { AreKept app.now kept.items }
        requires legal { (t : Entries) → IsTrace t → HasHistories t kept.items
            → IsLegalTrace app.now t }
        ensures { IfOk result (λ w. (t : Entries) × WorldStands app.now w t × HasHistories t kept.items) }
    {
        let pairs = in_turn(alloc, kept)?;
        let (objects, histories) = taken_apart(alloc, pairs)?;
        let trace = merge(alloc, histories)?;
        World::along(alloc, app, objects, trace)
    }

    // The world of a legal trace. Each of the objects stands for its history in the trace, which was taken from it.
    fn along(
        alloc: Global,
        app: &App,
        objects: Vec<(Object, History)>,
        trace: Trace,
    ) -> Result<World, NoMemory>
        requires sound { IsTrue (is_sound app.now) }
        requires legal { IsLegalTrace app.now trace }
        requires objects { AreBare app.now trace objects.items }
        ensures { IfOk result (λ w. WorldStands app.now w trace) }
    {
        let entries = trace.as_slice();
        let Going { processes, trail } = Going::of(alloc, app, entries, has_reads(app))?;
        let carrier = last_carried(entries);
        let kept = given_back(objects, trace.into_entries())?;
        let objects = all_kept(alloc, kept)?;
        Ok(World {
            objects,
            processes,
            trail,
            carrier,
            alloc,
        })
    }
}

// The items of a list, so that they can be gone over by value.
fn in_turn<T: Drop>(alloc: Global, mut list: List<T>) -> Result<Vec<T>, NoMemory>
    ensures { IfOk result (λ v. v.items ≡ list.items) }
{
    let mut items = Vec::new(alloc);
    while let Some(item) = list.pop() {
        add(&mut items, item)?;
    }
    items.reverse();
    Ok(items)
}

// The objects, each with no history, and beside them the histories.
fn taken_apart(
    alloc: Global,
    pairs: Vec<(Object, History)>,
) -> Result<(Vec<(Object, History)>, Histories), NoMemory>
    ensures objects { IfOk result (λ apart. apart.0.items ≡ map bare pairs.items) }
    ensures histories { IfOk result (λ apart. apart.1.items ≡ map taken pairs.items) }
{
    let mut objects = Vec::new(alloc);
    let mut histories = List::new(alloc);
    for pair in pairs {
        let (object, history) = pair;
        add(&mut objects, (object, List::new(alloc)))?;
        histories.add(history)?;
    }
    Ok((objects, histories))
}

// Puts an entry behind the history of its object.
fn put_back(objects: &mut Vec<(Object, History)>, entry: Entry) -> Result<(), NoMemory>
    requires { entry.object < length objects.old.items }
    ensures { OnOk result (IsBackAt objects.old.items entry objects.new.items) }
{
    let pair = &mut objects[entry.object as usize];
    pair.1.add(entry)
}

// The objects with these entries, each behind the history of its object.
fn given_back(
    mut objects: Vec<(Object, History)>,
    entries: Vec<Entry>,
) -> Result<Vec<(Object, History)>, NoMemory>
    requires { All (λ e. e.object < length objects.items) entries.items }
    ensures { IfOk result (λ now. AreBack objects.items entries.items now.items) }
{
    for entry in entries {
        put_back(&mut objects, entry)?;
    }
    Ok(objects)
}

// The objects with their histories, for which they stand.
fn all_kept(alloc: Global, pairs: Vec<(Object, History)>) -> Result<Vec<Recorded<Object>>, NoMemory>
    requires { All (λ kept. ObjectAt kept.0 kept.1.items) pairs.items }
    ensures { IfOk result (λ v. v.items ≡ map at_last pairs.items) }
{
    let mut recorded = Vec::new(alloc);
    for pair in pairs {
        let (object, history) = pair;
        keep_with(&mut recorded, object, history)?;
    }
    Ok(recorded)
}

// The stamp of an entry of the carrier of a world: 0 of another's.
#[tactic(auto, using(crate::proofs::KeptWorld::own_stamp, crate::proofs::KeptWorld::other_stamp))]
fn carried_stamp(entry: &Entry) -> u64
    ensures { result ≡ last_stamp (entries_by (Carrier 0) (entry.now ∷ [])) }
{
    if is_by(Actor::Carrier(0), entry) {
        entry.stamp
    } else {
        0
    }
}

// The last stamp of that carrier.
fn last_carried(entries: &[Entry]) -> u64
    ensures { result ≡ last_stamp (entries_by (Carrier 0) entries.now) }
{
    let mut last = 0;
    for entry in entries {
        last = carried_stamp(entry).max(last);
    }
    last
}
