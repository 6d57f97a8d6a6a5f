ghost use Rattle.std.specs.Prelude.{◌≡◌, ◌++◌, if◌then◌else◌, OnOk, codes, decimal};
ghost use Rattle.anti_text.specs.Calls.{kind_text, value_and_baggage, handler_and_rest, posted_text, key_at_region, part_at_region, call_text};
ghost use Rattle.anti_text.specs.Words.{region_name, quoted, lineage_text};

use crate::output::Output;
use crate::printer::Printer;
use crate::words::{quoted, region_name, sub_name_on};
use anti_app::App;
use anti_ids::{Lineage, Name, NoMemory, Value};
use anti_kind::{Call, Message, MessageKind};

/// The word of the kind of a message.
pub fn kind_text(kind: MessageKind) -> &'static [u8]
    ensures { result.now ≡ kind_text kind }
{
    match kind {
        MessageKind::Request => b"request",
        MessageKind::Call => b"call",
        MessageKind::Send => b"send",
        MessageKind::Reply => b"reply",
    }
}

/// Writes what a reply to a call says.
pub fn value_and_baggage(
    out: &mut Output,
    printer: &Printer,
    message: &Message,
) -> Result<(), NoMemory>
    ensures { OnOk result (out.new ≡ out.old
        ++ value_and_baggage printer.now.app.now message.now) }
{
    quoted(out, message.value.bytes())?;
    out.put(b" ")?;
    printer.carried(out, message)
}

/// Writes what a message to a handler says.
pub fn handler_and_rest(
    out: &mut Output,
    printer: &Printer,
    message: &Message,
) -> Result<(), NoMemory>
    ensures { OnOk result (out.new ≡ out.old
        ++ handler_and_rest printer.now.app.now message.now) }
{
    out.put(message.handler.bytes())?;
    out.numbered(b" ", u64::from(message.depth))?;
    out.put(b" ")?;
    value_and_baggage(out, printer, message)
}

// Writes a message as it is posted.
fn posted_text(
    out: &mut Output,
    printer: &Printer,
    message: &Message,
    kind: MessageKind,
) -> Result<(), NoMemory>
    ensures { OnOk result (out.new ≡ out.old
        ++ posted_text printer.now.app.now message.now kind) }
{
    match kind {
        MessageKind::Reply => {
            out.numbered(b"reply ", u64::from(message.to))?;
            out.put(b" ")?;
            value_and_baggage(out, printer, message)
        }
        MessageKind::Request | MessageKind::Call | MessageKind::Send => {
            out.put_all(&[kind_text(kind), b" "])?;
            handler_and_rest(out, printer, message)
        }
    }
}

// Writes the call that posts a message.
fn post_text(out: &mut Output, printer: &Printer, message: &Message) -> Result<(), NoMemory>
    ensures { OnOk result (out.new ≡ out.old
        ++ codes "post " ++ posted_text printer.now.app.now message.now message.now.kind) }
{
    out.put(b"post ")?;
    posted_text(out, printer, message, message.kind)
}

// Writes a word and a key at a region.
fn keyed(out: &mut Output, app: &App, word: &[u8], region: u32, key: &Name) -> Result<(), NoMemory>
    ensures { OnOk result (out.new ≡ out.old ++ word.now ++ key_at_region app.now region key.now) }
{
    out.put(word)?;
    out.put(region_name(app, region))?;
    out.put(b" ")?;
    out.put(key.bytes())
}

// Writes a word, and a version and its part at a region.
fn parted(
    out: &mut Output,
    app: &App,
    word: &[u8],
    region: u32,
    version: u64,
    part: u32,
) -> Result<(), NoMemory>
    ensures { OnOk result (out.new ≡ out.old
        ++ word.now ++ part_at_region app.now region version part) }
{
    out.put(word)?;
    out.put(region_name(app, region))?;
    out.numbered(b" ", version)?;
    out.numbered(b" ", u64::from(part))
}

// Writes the call that writes a value to a key.
fn write_text(
    out: &mut Output,
    printer: &Printer,
    key: &Name,
    value: &Value,
    lineage: &Lineage,
) -> Result<(), NoMemory>
    ensures { OnOk result (out.new ≡ out.old ++ codes "write " ++ key.now ++ codes " "
        ++ quoted value.now ++ codes " " ++ lineage_text printer.now.app.now lineage.now) }
{
    out.put(b"write ")?;
    out.put(key.bytes())?;
    out.put(b" ")?;
    quoted(out, value.bytes())?;
    out.put(b" ")?;
    printer.lineage(out, lineage)
}

// The word of a look of a dry run, or of a barrier.
fn look_word(dry: bool) -> &'static [u8]
    ensures { result.now ≡ (if dry then codes "dry " else codes "look ") }
{
    if dry { b"dry " } else { b"look " }
}

// Writes a look of a barrier or of a dry run.
fn look_text(
    out: &mut Output,
    printer: &Printer,
    region: u32,
    ids: &Lineage,
    dry: bool,
) -> Result<(), NoMemory>
    ensures { OnOk result (out.new ≡ out.old ++ (if dry then codes "dry " else codes "look ")
        ++ region_name printer.now.app.now region
        ++ codes " " ++ lineage_text printer.now.app.now ids.now) }
{
    out.put(look_word(dry))?;
    out.put(region_name(printer.app, region))?;
    out.put(b" ")?;
    printer.lineage(out, ids)
}

// Writes the call that takes the next message or cell for a subscription of the store.
fn pull_text(out: &mut Output, app: &App, store: u32, sub: u32) -> Result<(), NoMemory>
    ensures { OnOk result (out.new ≡ out.old ++ call_text app.now store (Call.Pull sub)) }
{
    out.put(b"pull ")?;
    out.put(sub_name_on(app, store, sub))
}

// Writes the call that takes a cell once more for a subscription of the store.
fn repull_text(
    out: &mut Output,
    app: &App,
    store: u32,
    sub: u32,
    version: u64,
) -> Result<(), NoMemory>
    ensures { OnOk result (out.new ≡ out.old
        ++ call_text app.now store (Call.Repull sub version)) }
{
    out.put(b"repull ")?;
    out.put(sub_name_on(app, store, sub))?;
    out.numbered(b" ", version)
}

/// Writes a call at the object with a number.
pub fn call_text(
    out: &mut Output,
    printer: &Printer,
    object: u32,
    call: &Call,
) -> Result<(), NoMemory>
    ensures { OnOk result (out.new ≡ out.old ++ call_text printer.now.app.now object call.now) }
{
    let app = printer.app;
    match call {
        Call::Write {
            key,
            value,
            lineage,
        } => write_text(out, printer, key.get(), value, lineage.get()),
        Call::Read { region, key } => keyed(out, app, b"read ", *region, key),
        Call::Scan { region, prefix } => keyed(out, app, b"scan ", *region, prefix),
        Call::Poll { region, key } => keyed(out, app, b"poll ", *region, key),
        Call::Look { region, ids, dry } => look_text(out, printer, *region, ids.get(), *dry),
        Call::Ship {
            region,
            version,
            part,
        } => parted(out, app, b"ship ", *region, *version, *part),
        Call::Again {
            region,
            version,
            part,
        } => parted(out, app, b"again ", *region, *version, *part),
        Call::Pull { sub } => pull_text(out, app, object, *sub),
        Call::Repull { sub, version } => repull_text(out, app, object, *sub, *version),
        Call::Ack { version } => out.numbered(b"ack ", *version),
        Call::Nack { version } => out.numbered(b"nack ", *version),
        Call::Post { message } => post_text(out, printer, message.get()),
        Call::Take { nth } => out.numbered(b"take ", u64::from(*nth)),
        Call::Repost { number } => out.numbered(b"repost ", u64::from(*number)),
        Call::TakeReply { number } => out.numbered(b"takereply ", u64::from(*number)),
    }
}
