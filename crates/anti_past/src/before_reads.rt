ghost use Rattle.std.specs.Prelude.{ℕ, ◌≡◌, Some, IfOk, List, option_map, slice_get, take};
ghost use Rattle.anti_kind.specs.declared.entry.Entry.{Entry};
ghost use Rattle.anti_trace.specs.Legal.{IsLegalTrace};
ghost use Rattle.anti_past.specs.Pasts.{IsPastOf};
ghost use Rattle.anti_past.specs.inner.Found.{AreFound};
ghost use Rattle.anti_past.specs.inner.Walking.{IsHanded};

use crate::calls::region_named;
use crate::finds::Finds;
use crate::look_passes::all_pass;
use crate::span_keys::read_key;
use anti_app::App;
use anti_ids::{Copies, Lineage, NoMemory};
use anti_kind::Entry;
use std::alloc::Global;

/// What stands before a read: the lineage that its process carries into it, and whether the read is settled.
#[derive(Drop)]
pub struct Past {
    pub carried: Lineage,
    pub settled: bool,
}

impl Finds {
    /// The past of an entry, by what the looks before it found and what is handed at it; `None` where it is no read.
    pub fn past(
        &self,
        alloc: Global,
        app: &App,
        entry: &Entry,
        handed: Option<&Lineage>,
    ) -> Result<Option<Past>, NoMemory>
        ensures { (trace : List Entry) (k : ℕ) → IsLegalTrace app.now trace → slice_get trace k ≡ Some entry.now
            → AreFound (take k trace) self.now → IsHanded app.now trace k entry.now (option_map (λ ids. ids.now) handed.entry)
            → IfOk result (IsPastOf app.now trace k entry.now) }
    {
        let Some(span) = read_key(entry) else {
            return Ok(None);
        };
        match handed {
            Some(ids) => {
                let settled = all_pass(app, region_named(&entry.call), self, span, ids);
                let carried = ids.copy(alloc)?;
                Ok(Some(Past { carried, settled }))
            }
            // at a read all is handed
            None => Ok(None),
        }
    }
}
