ghost use Rattle.std.specs.Prelude.{◌≡◌, ◌++◌, OnOk, codes};
ghost use Rattle.anti_text.specs.Processes.{end_text, process_line};
ghost use Rattle.anti_text.specs.Words.{handler_name, service_name};

use crate::output::Output;
use crate::words::{handler_name, mark_text, object_name, service_name};
use anti_app::App;
use anti_ids::NoMemory;
use anti_proc::End;
use anti_trace::ProcessEnd;

// Writes how a process ended.
pub fn end_text(out: &mut Output, app: &App, end: Option<End>) -> Result<(), NoMemory>
    ensures { OnOk result (out.new ≡ out.old ++ end_text app.now end) }
{
    match end {
        Some(End::Fine) => out.put(b"fine"),
        Some(End::Depth) => out.put(b"depth"),
        Some(End::BadKey) => out.put(b"badkey"),
        Some(End::LineageFull) => out.put(b"lineage"),
        Some(End::StoreFull(object)) => out.put_all(&[b"store ", object_name(app, object)]),
        None => out.put(b"open"),
    }
}

// Writes the names of a service and of a handler of it, between spaces.
fn handler_words(
    out: &mut Output,
    app: &App,
    service: usize,
    handler: usize,
) -> Result<(), NoMemory>
    ensures { OnOk result (out.new ≡ out.old ++ codes " " ++ service_name app.now service
        ++ codes " " ++ handler_name app.now service handler ++ codes " ") }
{
    out.put_all(&[
        b" ",
        service_name(app, service),
        b" ",
        handler_name(app, service, handler),
        b" ",
    ])
}

/// Writes the line of a process.
pub fn process_line(out: &mut Output, app: &App, process: &ProcessEnd) -> Result<(), NoMemory>
    ensures { OnOk result (out.new ≡ out.old ++ process_line app.now process.now) }
{
    out.put(b"process ")?;
    mark_text(out, app, process.birth.object, process.birth.place)?;
    handler_words(out, app, process.service, process.handler)?;
    end_text(out, app, process.end)?;
    out.put(b"\n")
}
