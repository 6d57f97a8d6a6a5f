ghost use Rattle.std.specs.Prelude.{◌<◌, length, IfOk, IsTrue};
ghost use Rattle.anti_app.specs.Sound.{is_sound};
ghost use Rattle.anti_trace.specs.Histories.{Entries};
ghost use Rattle.anti_trace.specs.Legal.{IsLegalTrace};
ghost use Rattle.anti_trace.specs.inner.Trails.{IsTrailOf};
ghost use Rattle.anti_past.specs.inner.Walking.{HasCome, IsStep};

use crate::before_reads::Past;
use crate::came::AllCame;
use crate::finds::Finds;
use crate::trail_cursor::TrailCursor;
use anti_app::App;
use anti_ids::NoMemory;
use anti_trace::{Mark, Trace, Trail};
use std::alloc::Global;

/// A walk along a legal trace and its trail, which has come to one of the entries: how far it is in the trail, what came to the spans of the
/// processes, and what their looks found. No entry before it loses an id.
pub struct Walk {
    pub(crate) alloc: Global,
    pub(crate) cursor: TrailCursor,
    pub(crate) came: AllCame,
    pub(crate) found: Finds,
}

// By hand, so that no caller sees the fields.
impl Drop for Walk {
    fn drop(self) {
        let Walk {
            alloc: _,
            cursor,
            came,
            found,
        } = self;
        drop(cursor);
        drop(came);
        drop(found);
    }
}

/// What a walk tells of an entry.
#[derive(Drop)]
pub enum Step {
    /// The entry loses an id, and the walk ends.
    Loss(Mark),
    /// The past of the entry, where it is a read. The walk has come to the next one.
    Goes(Option<Past>),
}

impl Walk {
    /// The walk that has come to the first entry.
    pub fn new(alloc: Global, app: &App) -> Result<Walk, NoMemory>
        requires { IsTrue (is_sound app.now) }
        ensures { (trace : Entries) → IsLegalTrace app.now trace → IfOk result (HasCome app.now trace 0) }
    {
        let cursor = TrailCursor::new(alloc, app)?;
        let came = AllCame::new(alloc);
        let found = Finds::new(alloc);
        Ok(Walk {
            alloc,
            cursor,
            came,
            found,
        })
    }

    /// Goes past the entry at an index, to which it has come, unless the entry loses an id.
    pub fn step(
        &mut self,
        app: &App,
        trace: &Trace,
        trail: &Trail,
        index: u32,
    ) -> Result<Step, NoMemory>
        requires come { HasCome app.now trace.now index self.old }
        requires trail { IsTrailOf app.now trace.now trail.now }
        requires there { index < length trace.now }
        ensures { IfOk result (IsStep app.now trace.now index self.new) }
    {
        let entry = trace.at(index);
        let handed = self.cursor.handed(trail, entry);
        if self
            .came
            .follow(self.alloc, app, trace, index, entry, handed)?
        {
            return Ok(Step::Loss(Mark {
                object: entry.object,
                place: entry.place,
            }));
        }
        let past = self.found.past(self.alloc, app, entry, handed)?;
        self.found.add(self.alloc, entry)?;
        self.cursor.go_past(entry);
        Ok(Step::Goes(past))
    }
}
