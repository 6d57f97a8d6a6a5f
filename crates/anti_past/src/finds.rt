ghost use Rattle.std.specs.Prelude.{◌≡◌, ◌||◌, ◌&&◌, [], cond, OnOk};
ghost use Rattle.anti_ids.specs.Ids.{has_id};
ghost use Rattle.anti_ids.specs.declared.id.WriteId.{WriteId};
ghost use Rattle.anti_past.specs.declared.span_keys.SpanKey.{SpanKey};
ghost use Rattle.anti_past.specs.inner.Found.{AreFound, finds, found_by, has_found};
ghost use Rattle.anti_past.specs.inner.Keys.{same_key};

use crate::calls::found_in;
use crate::span_finds::SpanFinds;
use crate::span_keys::{SpanKey, key_of};
use anti_ids::{Lineage, NoMemory};
use anti_kind::Entry;
use std::alloc::Global;
use std::collections::BTreeMap;

/// What the looks of a trace found so far, under their spans.
#[derive(Drop)]
pub struct Finds {
    pub(crate) spans: BTreeMap<SpanKey, SpanFinds>,
}

impl Finds {
    /// Nothing was found.
    pub fn new(alloc: Global) -> Finds
        ensures { AreFound [] result }
    {
        Finds {
            spans: BTreeMap::new(alloc),
        }
    }

    /// What the looks of a span found; `None` where it had none.
    pub fn of(&self, span: &SpanKey) -> Option<&SpanFinds>
        ensures { (w : WriteId) → found_by result w ≡ has_found self.now span.now w }
    {
        self.spans.get(span)
    }

    // Begins with the ids that the first look of a span found.
    fn begin(&mut self, alloc: Global, span: SpanKey, ids: &Lineage) -> Result<(), NoMemory>
        ensures { (q : SpanKey) (w : WriteId) → OnOk result (has_found self.new q w
            ≡ cond (same_key span q) (has_id w ids.now) (has_found self.old q w)) }
    {
        let mut found = SpanFinds::new(alloc);
        found.add_all(alloc, ids)?;
        match self.spans.insert(span, found) {
            Ok(_) => Ok(()),
            Err(_) => Err(NoMemory),
        }
    }

    // Adds the ids that a look of a span found.
    fn add_all(&mut self, alloc: Global, span: SpanKey, ids: &Lineage) -> Result<(), NoMemory>
        ensures { (q : SpanKey) (w : WriteId) → OnOk result (has_found self.new q w
            ≡ (has_found self.old q w || (same_key span q && has_id w ids.now))) }
    {
        match self.spans.get_mut(&span) {
            Some(found) => found.add_all(alloc, ids),
            None => self.begin(alloc, span, ids),
        }
    }

    /// Adds what an entry found, where it is a look of a process that found all that it looked for.
    pub fn add(&mut self, alloc: Global, entry: &Entry) -> Result<(), NoMemory>
        ensures { (q : SpanKey) (w : WriteId) → OnOk result (has_found self.new q w
            ≡ (has_found self.old q w || finds q w entry.now)) }
    {
        let Some(ids) = found_in(entry) else {
            return Ok(());
        };
        let Some(span) = key_of(entry) else {
            return Ok(());
        };
        self.add_all(alloc, span, ids)
    }
}
