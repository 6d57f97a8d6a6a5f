// What is asked of an application and of its run, and is not there.
ghost use Rattle.std.specs.Prelude.{IsTrue};
ghost use Rattle.anti_app.specs.Sound.{is_sound};
ghost use Rattle.anti_trace.specs.Legal.{IsLegalTrace};
ghost use Rattle.anti_trace.specs.inner.Living.{AreOfSome, lists};

use crate::call_rows::assert_so;
use crate::pulls::BARRIER_WAITS;
use crate::run_rows::{PlayedRun, run_of};
use anti_app::{App, number_on, object_at, object_count, sub_on};
use anti_kind::{Actor, Birth, Entry};
use anti_object::Object;
use anti_past::PlaceByMark;
use anti_trace::{Going, Mark, Processes, Trace, Trail};
use std::alloc::Global;

// Past all objects, subscriptions and entries.
const PAST: u32 = 1_000_000;

// Whether an application has no object of the number behind the last, or one that is greater, and no subscription at a position that is
// too high or at such an object.
fn ends(alloc: Global, app: &App) -> bool
    requires { IsTrue (is_sound app.now) }
{
    for number in [object_count(app), PAST] {
        let is_past = object_at(app, number).is_none() && sub_on(app, number, 0).is_none();
        if !is_past || !matches!(Object::of(alloc, app, number), Ok(None)) {
            return false;
        }
    }
    number_on(app, 0, PAST as usize).is_none() && number_on(app, PAST, 0).is_none()
}

// A process that is not born.
fn unborn(object: u32) -> Birth {
    Birth {
        object,
        place: PAST,
    }
}

// Whether of such a birth there is no process.
fn is_unborn(processes: &Processes, object: u32) -> bool
    requires { AreOfSome (lists processes.now) }
{
    let birth = unborn(object);
    let place = processes.find(birth);
    place.is_none() && processes.of(birth, place).is_none()
}

// Whether just the entries of carriers have no process behind them all.
fn are_placed(processes: &Processes, trace: &[Entry]) -> bool
    requires { AreOfSome (lists processes.now) }
{
    for entry in trace {
        if processes.place_of(entry).is_none() != matches!(entry.actor, Actor::Carrier(_)) {
            return false;
        }
    }
    true
}

// Whether nothing stands at an object or an index that is too high.
fn ends_there(trail: &Trail) -> bool {
    trail.get(0, PAST as usize).is_none() && trail.get(PAST, 0).is_none()
}

// Whether the first entry has its place, and no entry has a mark that is too high.
fn is_found(alloc: Global, trace: &Trace) -> bool {
    let Ok(places) = PlaceByMark::of(alloc, trace) else {
        return false;
    };
    let Some(first) = trace.as_slice().first() else {
        return false;
    };
    let mark = Mark {
        object: first.object,
        place: first.place,
    };
    let past = Mark {
        object: first.object,
        place: PAST,
    };
    places.find(mark) == Some(0) && places.find(past).is_none()
}

// Whether a run has nothing that is not there.
fn is_bare(alloc: Global, run: &PlayedRun) -> bool
    requires sound { IsTrue (is_sound run.now.app) }
    requires legal { IsLegalTrace run.now.app run.now.trace }
{
    let Ok(going) = Going::of(alloc, &run.app, run.trace.as_slice(), true) else {
        return false;
    };
    ends(alloc, &run.app)
        && is_unborn(&going.processes, 0)
        && is_unborn(&going.processes, PAST)
        && are_placed(&going.processes, run.trace.as_slice())
        && ends_there(&going.trail)
        && is_found(alloc, &run.trace)
}

// Whether that is so of the run of a document.
fn is_bare_in(alloc: Global, document: &[u8]) -> bool {
    match run_of(alloc, document) {
        Some(run) => is_bare(alloc, &run),
        None => false,
    }
}

#[test]
fn what_is_not_there_is_none(rt: HostRuntime) {
    assert_so(&rt, is_bare_in(rt.alloc(), BARRIER_WAITS.as_bytes()));
}
