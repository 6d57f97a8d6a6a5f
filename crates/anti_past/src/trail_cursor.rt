ghost use Rattle.std.specs.Prelude.{ℕ, ◌≡◌, ◌+◌, List, IfOk, IsTrue, option_map};
ghost use Rattle.anti_kind.specs.declared.entry.Entry.{Entry};
ghost use Rattle.anti_app.specs.declared.app.App.{App};
ghost use Rattle.anti_app.specs.Sound.{is_sound};
ghost use Rattle.anti_trace.specs.inner.Trails.{IsTrailOf};
ghost use Rattle.anti_past.specs.inner.Cursors.{IsCursorAt, IsPassing};
ghost use Rattle.anti_past.specs.inner.Walking.{IsHanded};

use anti_app::{App, object_count};
use anti_ids::{Lineage, NoMemory};
use anti_kind::{Call, Entry};
use anti_trace::{Trail, leaves_trail};
use std::alloc::Global;

/// How far a walk along a trace has come in its trail: how many of the lineages of each object stand behind it.
#[derive(Drop)]
pub struct TrailCursor {
    pub(crate) passed: Vec<usize>,
}

impl TrailCursor {
    /// Nothing stands behind the walk.
    pub fn new(alloc: Global, app: &App) -> Result<TrailCursor, NoMemory>
        requires { IsTrue (is_sound app.now) }
        ensures { (trace : List Entry) → IfOk result (IsCursorAt app.now trace 0) }
    {
        let passed = vec![in alloc; 0usize; object_count(app) as usize]?;
        Ok(TrailCursor { passed })
    }

    /// What is handed at the entry to which the walk has come: what a write keeps, what stands in the trail at another entry at which all is
    /// to be carried, and nothing at the others.
    pub fn handed<'a>(&self, trail: &'a Trail, entry: &'a Entry) -> Option<&'a Lineage>
        requires { (app : App) × (trace : List Entry) × (k : ℕ) × IsPassing app trace k entry.now self.now }
        ensures { (app : App) (trace : List Entry) (k : ℕ) → IsPassing app trace k entry.now self.now
            → IsTrailOf app trace trail.now
            → IsHanded app trace k entry.now (option_map (λ ids. ids.now) result) }
    {
        if let Call::Write { lineage, .. } = &entry.call {
            return Some(lineage.get());
        }
        if !leaves_trail(&entry.call) {
            return None;
        }
        trail.get(entry.object, self.passed[entry.object as usize])
    }

    /// Goes past the entry to which the walk has come.
    pub fn go_past(&mut self, entry: &Entry)
        requires { (app : App) × (trace : List Entry) × (k : ℕ) × IsPassing app trace k entry.now self.old }
        ensures { (app : App) (trace : List Entry) (k : ℕ) → IsPassing app trace k entry.now self.old
            → IsCursorAt app trace (k + 1) self.new }
    {
        if leaves_trail(&entry.call) {
            self.passed[entry.object as usize] += 1;
        }
    }
}
