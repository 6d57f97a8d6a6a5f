ghost use Rattle.std.specs.Prelude.{◌≡◌, ◌++◌, IfOk, OnOk};
ghost use Rattle.anti_ids.specs.List.{plain};
ghost use Rattle.anti_text.specs.Placements.{place_of_line, placement_line, reason_word};

use crate::output::Output;
use crate::words::{handler_name, service_name};
use anti_app::App;
use anti_ids::{Bytes, NoMemory};
use anti_place::{Placement, Reason};
use itoa::Buffer;
use std::alloc::Global;

/// The word of a reason.
pub fn reason_word(reason: Reason) -> &'static [u8]
    ensures { result.now ≡ reason_word reason }
{
    match reason {
        Reason::Removed => b"removed",
        Reason::Untracked => b"untracked",
        Reason::Untransferred => b"untransferred",
        Reason::Unsettled => b"unsettled",
    }
}

/// Writes which line of a handler it is, and a space.
pub fn place_of_line(
    out: &mut Output,
    app: &App,
    service: u32,
    handler: u32,
    line: u32,
) -> Result<(), NoMemory>
    ensures { OnOk result (out.new ≡ out.old ++ place_of_line app.now service handler line) }
{
    let mut digits = Buffer::new();
    out.put_all(&[
        service_name(app, service as usize),
        b" ",
        handler_name(app, service as usize, handler as usize),
        b" ",
        digits.format(line).as_bytes(),
        b" ",
    ])
}

// Writes the line that tells a placement.
fn put_line(out: &mut Output, app: &App, placement: Placement) -> Result<(), NoMemory>
    ensures { OnOk result (out.new ≡ out.old ++ placement_line app.now placement) }
{
    match placement {
        Placement::Yes => out.put(b"placed\n"),
        Placement::No {
            service,
            handler,
            line,
            reason,
        } => {
            out.put(b"unplaced ")?;
            place_of_line(out, app, service, handler, line)?;
            out.put_all(&[reason_word(reason), b"\n"])
        }
    }
}

/// The line that tells a placement. The only error is want of memory.
pub fn placement_line(alloc: Global, app: &App, placement: Placement) -> Result<Bytes, NoMemory>
    ensures { IfOk result (λ line. line ≡ plain (placement_line app.now placement)) }
{
    let mut out = Output::new(alloc);
    put_line(&mut out, app, placement)?;
    Ok(out.into_bytes())
}
