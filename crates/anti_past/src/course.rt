ghost use Rattle.std.specs.Prelude.{IfOk, IsTrue};
ghost use Rattle.anti_app.specs.Sound.{is_sound};
ghost use Rattle.anti_trace.specs.Legal.{IsLegalTrace};
ghost use Rattle.anti_trace.specs.inner.Trails.{IsTrailIfKept, IsTrailOf};
ghost use Rattle.anti_past.specs.inner.Walking.{IsCourseOf};

use crate::before_reads::Past;
use crate::walk::{Step, Walk};
use anti_app::App;
use anti_ids::NoMemory;
use anti_trace::{Mark, Trace, Trail};
use std::alloc::Global;

/// What a walk along a trace comes to: a loss, or the end.
#[derive(Drop)]
pub enum Course {
    /// The first entry that loses an id.
    Loss(Mark),
    /// No entry loses one: the pasts of the reads, by the places of the entries; `None` where an entry is no read.
    NoLoss(Vec<Option<Past>>),
}

impl Course {
    // The course of a legal trace, by its trail. The walk ends at the first loss.
    fn by_trail(alloc: Global, app: &App, trace: &Trace, trail: &Trail) -> Result<Course, NoMemory>
        requires sound { IsTrue (is_sound app.now) }
        requires legal { IsLegalTrace app.now trace.now }
        requires trail { IsTrailOf app.now trace.now trail.now }
        ensures { IfOk result (IsCourseOf app.now trace.now) }
    {
        let mut walk = Walk::new(alloc, app)?;
        let mut pasts = Vec::with_capacity(alloc, trace.len() as usize)?;
        for index in 0..trace.len() {
            match walk.step(app, trace, trail, index)? {
                Step::Loss(mark) => return Ok(Course::Loss(mark)),
                Step::Goes(past) => pasts.push(past)?,
            }
        }
        Ok(Course::NoLoss(pasts))
    }

    /// The course of a legal trace, whose trail is found by one walk along it.
    pub fn of(alloc: Global, app: &App, trace: &Trace) -> Result<Course, NoMemory>
        requires sound { IsTrue (is_sound app.now) }
        requires legal { IsLegalTrace app.now trace.now }
        ensures { IfOk result (IsCourseOf app.now trace.now) }
    {
        let trail = Trail::of(alloc, app, trace.as_slice())?;
        Course::by_trail(alloc, app, trace, &trail)
    }

    /// The same, by a trail of the trace where that is kept, and no process is played. The only error is want of memory.
    pub fn along(alloc: Global, app: &App, trace: &Trace, trail: &Trail) -> Result<Course, NoMemory>
        requires sound { IsTrue (is_sound app.now) }
        requires legal { IsLegalTrace app.now trace.now }
        requires trail { IsTrailIfKept app.now trace.now trail.now }
        ensures { IfOk result (IsCourseOf app.now trace.now) }
    {
        if trail.is_kept() {
            Course::by_trail(alloc, app, trace, trail)
        } else {
            Course::of(alloc, app, trace)
        }
    }
}
