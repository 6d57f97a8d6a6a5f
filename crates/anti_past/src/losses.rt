ghost use Rattle.std.specs.Prelude.{IfOk, IsTrue};
ghost use Rattle.anti_app.specs.Sound.{is_sound};
ghost use Rattle.anti_trace.specs.Legal.{IsLegalTrace};
ghost use Rattle.anti_past.specs.Told.{IsFirstLoss};

use crate::course::Course;
use anti_app::App;
use anti_ids::NoMemory;
use anti_trace::{Mark, Trace};
use std::alloc::Global;

/// The first entry at which a lineage loses an id: a write, a read, a look or a post into which its process does not carry all that came to
/// the span before. The only error is want of memory.
pub fn first_loss(alloc: Global, app: &App, trace: &Trace) -> Result<Option<Mark>, NoMemory>
    requires sound { IsTrue (is_sound app.now) }
    requires legal { IsLegalTrace app.now trace.now }
    ensures { IfOk result (IsFirstLoss app.now trace.now) }
{
    match Course::of(alloc, app, trace)? {
        Course::Loss(mark) => Ok(Some(mark)),
        Course::NoLoss(_pasts) => Ok(None),
    }
}
