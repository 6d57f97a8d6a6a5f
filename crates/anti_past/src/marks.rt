ghost use Rattle.std.specs.Prelude.{◌≡◌, IfOk};
ghost use Rattle.anti_app.specs.declared.app.App.{App};
ghost use Rattle.anti_trace.specs.Legal.{IsLegalTrace};
ghost use Rattle.anti_past.specs.inner.Marks.{KnowsPlaces, place_known};

use anti_ids::NoMemory;
use anti_trace::{Mark, Trace};
use std::alloc::Global;
use std::collections::BTreeMap;

/// The places of the entries of a trace, counted from 0, by the marks of the entries.
#[derive(Drop)]
pub struct PlaceByMark {
    // by the object and the place in its history
    pub(crate) places: BTreeMap<(u32, u32), u32>,
}

impl PlaceByMark {
    /// The places of the entries of a legal trace, in which no two entries have one mark. The only error is want of memory.
    pub fn of(alloc: Global, trace: &Trace) -> Result<PlaceByMark, NoMemory>
        ensures { (app : App) → IsLegalTrace app trace.now → IfOk result (KnowsPlaces trace.now) }
    {
        let mut places = BTreeMap::new(alloc);
        for index in 0..trace.len() {
            let entry = trace.at(index);
            match places.insert((entry.object, entry.place), index) {
                Ok(_) => {}
                Err(_) => return Err(NoMemory),
            }
        }
        Ok(PlaceByMark { places })
    }

    /// The place of the entry with a mark; `None` where there is none.
    pub fn find(&self, mark: Mark) -> Option<u32>
        ensures { result ≡ place_known self.now mark }
    {
        self.places.get(&(mark.object, mark.place)).copied()
    }
}
