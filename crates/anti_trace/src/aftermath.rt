ghost use Rattle.std.specs.Prelude.{◌≡◌, ◌<◌, ◌++◌, ◌∷◌, [], Bool, length, true, IfOk, OnOk, IsTrue};
ghost use Rattle.anti_app.specs.declared.app.App.{App};
ghost use Rattle.anti_app.specs.Sound.{is_sound};
ghost use Rattle.anti_trace.specs.Histories.{Entries};
ghost use Rattle.anti_trace.specs.Legal.{IsLegalTrace};
ghost use Rattle.anti_trace.specs.inner.Living.{AreProcessesOf, IsPlaceOf, lists};
ghost use Rattle.anti_trace.specs.inner.Trails.{HasGone, IsAftermathOf, IsNextIn, IsTrailIfKept, IsTrailOf};

use crate::ends::Ends;
use crate::objects::ObjectsAfter;
use crate::processes::Processes;
use crate::trail::Trail;
use anti_app::{App, object_count};
use anti_ids::NoMemory;
use anti_kind::{Actor, Entry};
use std::alloc::Global;

/// What is left of the processes of a trace when it is over.
#[derive(Drop)]
pub struct Aftermath {
    /// How each process ended.
    pub ends: Ends,
    /// What they carried into their reads, looks and posts, where that is kept.
    pub trail: Trail,
}

/// The processes of a trace so far, and the trail that they left.
#[derive(Drop)]
pub struct Going {
    /// Each process as it is behind the last of its entries.
    pub processes: Processes,
    /// What they carried into their reads, looks and posts, where that is kept.
    pub trail: Trail,
}

// Adds to the trail what the process of the next entry carries into it, by the place at which it stands, where the trail is kept.
fn note(
    trail: &mut Trail,
    alloc: Global,
    processes: &Processes,
    entry: &Entry,
    place: Option<usize>,
) -> Result<(), NoMemory>
    requires there { entry.now.object < length trail.old.at.items }
    requires place { IsPlaceOf (lists processes.now) entry.now place }
    ensures kept { trail.new.is_kept ≡ trail.old.is_kept }
    ensures trail { (app : App) (before after : Entries) → IsTrue (is_sound app)
        → IsLegalTrace app (before ++ entry.now ∷ after)
        → AreProcessesOf app (lists processes.now) before → IsTrailIfKept app before trail.old
        → OnOk result (IsTrailIfKept app (before ++ entry.now ∷ []) trail.new) }
{
    let Actor::Process(birth) = entry.actor else {
        return Ok(());
    };
    match processes.of(birth, place) {
        Some(process) => {
            let carried = trail.prepare(alloc, entry.object, process)?;
            trail.put(entry.object, carried);
            Ok(())
        }
        None => Ok(()),
    }
}

impl Going {
    // The processes of an application of which nothing has happened yet.
    fn new(alloc: Global, app: &App, is_kept: bool) -> Result<Going, NoMemory>
        requires { IsTrue (is_sound app.now) }
        ensures { IfOk result (HasGone app.now is_kept []) }
    {
        let count = object_count(app) as usize;
        let processes = Processes::new(alloc, count)?;
        let trail = Trail::new(alloc, count, is_kept)?;
        Ok(Going { processes, trail })
    }

    // Goes past the next entry of a legal trace. The process of the entry is found once.
    fn follow(&mut self, alloc: Global, app: &App, entry: &Entry) -> Result<(), NoMemory>
        requires sound { IsTrue (is_sound app.now) }
        requires next { IsNextIn app.now self.old entry.now }
        ensures { (is_kept : Bool) (before after : Entries)
            → IsLegalTrace app.now (before ++ entry.now ∷ after)
            → HasGone app.now is_kept before self.old
            → OnOk result (HasGone app.now is_kept (before ++ entry.now ∷ []) self.new) }
    {
        let place = self.processes.place_of(entry);
        note(&mut self.trail, alloc, &self.processes, entry, place)?;
        self.processes.follow_from(alloc, app, entry, place)
    }

    /// The processes of a legal trace, and their trail, where it is to be kept.
    pub fn of(alloc: Global, app: &App, trace: &[Entry], is_kept: bool) -> Result<Going, NoMemory>
        requires sound { IsTrue (is_sound app.now) }
        requires legal { IsLegalTrace app.now trace.now }
        ensures { IfOk result (HasGone app.now is_kept trace.now) }
    {
        let mut going = Going::new(alloc, app, is_kept)?;
        for entry in trace {
            going.follow(alloc, app, entry)?;
        }
        Ok(going)
    }
}

impl Aftermath {
    /// What is left of the processes of a legal trace. One walk goes along it and plays them.
    pub fn of(alloc: Global, app: &App, trace: &[Entry]) -> Result<Aftermath, NoMemory>
        requires sound { IsTrue (is_sound app.now) }
        requires legal { IsLegalTrace app.now trace.now }
        ensures { IfOk result (IsAftermathOf app.now trace.now) }
    {
        let objects = ObjectsAfter::of(alloc, app, trace)?;
        let Going { processes, trail } = Going::of(alloc, app, trace, true)?;
        let ends = processes.ends(alloc, &objects)?;
        Ok(Aftermath { ends, trail })
    }
}

impl Trail {
    /// The trail of a legal trace: the same walk without the ends.
    pub fn of(alloc: Global, app: &App, trace: &[Entry]) -> Result<Trail, NoMemory>
        requires sound { IsTrue (is_sound app.now) }
        requires legal { IsLegalTrace app.now trace.now }
        ensures { IfOk result (IsTrailOf app.now trace.now) }
    {
        let Going { trail, .. } = Going::of(alloc, app, trace, true)?;
        Ok(trail)
    }
}
