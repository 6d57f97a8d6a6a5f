ghost use Rattle.std.specs.Prelude.{◌≡◌, ◌++◌, OnOk};
ghost use Rattle.anti_text.specs.Entries.{actor_name, span_text, actor_text, entry_line};

use crate::call_words::call_text;
use crate::output::Output;
use crate::printer::Printer;
use crate::reply_words::reply_text;
use crate::words::mark_text;
use anti_app::App;
use anti_ids::NoMemory;
use anti_kind::{Actor, Entry};

// Writes who made a call.
pub fn actor_name(out: &mut Output, app: &App, actor: Actor) -> Result<(), NoMemory>
    ensures { OnOk result (out.new ≡ out.old ++ actor_name app.now actor) }
{
    match actor {
        Actor::Carrier(number) => out.numbered(b"~", u64::from(number)),
        Actor::Process(birth) => mark_text(out, app, birth.object, birth.place),
        Actor::Newborn => Ok(()),
    }
}

// Writes the span of a process.
fn span_text(out: &mut Output, actor: Actor, span: u32) -> Result<(), NoMemory>
    ensures { OnOk result (out.new ≡ out.old ++ span_text actor span) }
{
    match actor {
        Actor::Process(_) => out.numbered(b"/", u64::from(span)),
        Actor::Carrier(_) | Actor::Newborn => Ok(()),
    }
}

// Writes who made a call, with the span of a process.
fn actor_text(out: &mut Output, app: &App, actor: Actor, span: u32) -> Result<(), NoMemory>
    ensures { OnOk result (out.new ≡ out.old ++ actor_text app.now actor span) }
{
    actor_name(out, app, actor)?;
    span_text(out, actor, span)
}

/// Writes the line of an entry.
pub fn entry_line(out: &mut Output, printer: &Printer, entry: &Entry) -> Result<(), NoMemory>
    ensures { OnOk result (out.new ≡ out.old ++ entry_line printer.now.app.now entry.now) }
{
    let app = printer.app;
    out.number(entry.stamp)?;
    out.put(b" ")?;
    mark_text(out, app, entry.object, entry.place)?;
    out.put(b" ")?;
    actor_text(out, app, entry.actor, entry.span)?;
    out.put(b" ")?;
    call_text(out, printer, entry.object, &entry.call)?;
    out.put(b" = ")?;
    reply_text(out, printer, &entry.reply)?;
    out.put(b"\n")
}
