// Documents that are played apart from the top call, and what is to be so of their runs.
ghost use Rattle.std.specs.Prelude.{IfSome, IsTrue};
ghost use Rattle.anti_app.specs.Sound.{is_sound};
ghost use Rattle.anti_trace.specs.Legal.{IsLegalTrace};

use crate::call_rows::{assert_at, assert_of};
use crate::loads::is_load;
use crate::orders::{are_all_ordered, has_last_order, has_order, have_orders};
use crate::past::{are_settled, are_spans, has_no_loss, is_carried, is_first_loss};
use crate::text::are_alike;
use anti_app::{App, read_app};
use anti_play::{Played, play};
use anti_trace::Trace;
use std::alloc::Global;
use std::process::Abort;

/// An application, and the trace of its run.
#[derive(Drop)]
pub struct PlayedRun {
    /// What was played.
    pub app: App,
    /// All entries that were made.
    pub trace: Trace,
}

/// What is to be so of a run. An entry is named by its object and its place.
pub enum Wanted<'a> {
    /// This entry is the first that lacks what came to its span before, and this is carried into it.
    Loss((u32, u32), &'a str),
    /// No entry lacks what came to its span before.
    NoLoss,
    /// This is carried into this entry.
    Carried((u32, u32), &'a str),
    /// Whether each read is settled, in the order of the trace.
    Settled(&'a [bool]),
    /// The spans with a read: the object and the place of the birth of the process, and the number of the span. The place 0 is any.
    Spans(&'a [(u32, u32, u32)]),
    /// The order of the reads in the first span of the process that began as the first entry of this object.
    Order(u32, &'a [(u32, u32)]),
    /// The order of the last entry, which is a read, alone.
    LastOrder(&'a [(u32, u32)]),
    /// So many spans have a read, and each has an order.
    Orders(usize),
    /// Some spans have a read, and as is counted each has an order.
    AllOrdered,
    /// The record that is made of the trace is the one that is printed of the run itself, and is longer than this.
    Record(usize),
    /// The application is the load of this number, and the value of its first request is this word.
    Load(u32, &'a str),
}

/// The application that the bytes state. `None` where they state none or memory runs out.
pub fn application(alloc: Global, document: &[u8]) -> Option<App>
    ensures { IfSome result (λ app. IsTrue (is_sound app)) }
{
    read_app(alloc, document).ok()
}

/// The run of the application that the bytes state. `None` where they state none or memory runs out.
pub fn run_of(alloc: Global, document: &[u8]) -> Option<PlayedRun>
    ensures sound { IfSome result (λ run. IsTrue (is_sound run.app)) }
    ensures legal { IfSome result (λ run. IsLegalTrace run.app run.trace) }
{
    let Some(app) = application(alloc, document) else {
        return None;
    };
    match play(alloc, &app) {
        Ok(Played { trace, .. }) => Some(PlayedRun { app, trace }),
        Err(_) => None,
    }
}

// Whether this is so of a run. Where memory runs out it is not.
fn is_so(alloc: Global, run: &PlayedRun, wanted: &Wanted) -> bool
    requires sound { IsTrue (is_sound run.now.app) }
    requires legal { IsLegalTrace run.now.app run.now.trace }
{
    match wanted {
        Wanted::Loss(at, text) => {
            is_first_loss(alloc, run, *at) && is_carried(alloc, run, *at, text)
        }
        Wanted::NoLoss => has_no_loss(alloc, run),
        Wanted::Carried(at, text) => is_carried(alloc, run, *at, text),
        Wanted::Settled(answers) => are_settled(alloc, run, answers),
        Wanted::Spans(listed) => are_spans(alloc, run, listed),
        Wanted::Order(object, marks) => has_order(alloc, run, *object, marks),
        Wanted::LastOrder(marks) => has_last_order(alloc, run, marks),
        Wanted::Orders(count) => have_orders(alloc, run, *count),
        Wanted::AllOrdered => are_all_ordered(alloc, run),
        Wanted::Record(least) => are_alike(alloc, &run.app, &run.app, *least),
        Wanted::Load(number, word) => is_load(alloc, *number, word, Some(&run.app)),
    }
}

/// Whether this is so of the run of a document. Where it states no application or memory runs out it is not.
pub fn holds(alloc: Global, document: &[u8], wanted: &Wanted) -> bool {
    match run_of(alloc, document) {
        Some(run) => is_so(alloc, &run, wanted),
        None => false,
    }
}

/// Asserts that all these are so of the run of a document.
pub fn assert_run(rt: &impl Abort, alloc: Global, document: &str, all: &[Wanted]) {
    for (number, wanted) in all.iter().enumerate() {
        assert_at(rt, number, holds(alloc, document.as_bytes(), wanted));
    }
}

/// Asserts of the run of each document what is beside it.
pub fn assert_runs(rt: &impl Abort, alloc: Global, rows: &[(&str, Wanted)]) {
    for (document, wanted) in rows {
        assert_of(rt, document, holds(alloc, document.as_bytes(), wanted));
    }
}
