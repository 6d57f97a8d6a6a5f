ghost use Rattle.std.specs.Prelude.{◌≡◌, ◌<◌, length, map, All, IfOk, IsSome, Some};
ghost use Rattle.anti_past.specs.Losses.{mark_of};
ghost use Rattle.anti_past.specs.inner.Marks.{place_known};
ghost use Rattle.anti_order.specs.Answers.{mark_at};

use anti_ids::NoMemory;
use anti_kind::Entry;
use anti_past::PlaceByMark;
use anti_trace::{Mark, Trace};
use std::alloc::Global;

/// The mark of an entry.
pub fn mark_of(entry: &Entry) -> Mark
    ensures { result ≡ mark_of entry.now }
{
    Mark {
        object: entry.object,
        place: entry.place,
    }
}

/// The mark of the entry at a place, counted from 0.
pub fn mark_at(trace: &Trace, place: u32) -> Mark
    requires { place < length trace.now }
    ensures { mark_at trace.now place ≡ Some result }
{
    mark_of(trace.at(place))
}

/// The places of the entries with some marks, all of which are known.
pub fn places_of(alloc: Global, known: &PlaceByMark, marks: &[Mark]) -> Result<Vec<u32>, NoMemory>
    requires { All (λ mark. IsSome (place_known known.now mark)) marks.now }
    ensures { IfOk result (λ places. map Some places.items ≡ map (place_known known.now) marks.now) }
{
    let mut places = Vec::new(alloc);
    for mark in marks {
        match known.find(*mark) {
            Some(place) => places.push(place)?,
            None => unreachable!(),
        }
    }
    Ok(places)
}
