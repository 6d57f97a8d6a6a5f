ghost use Rattle.std.specs.Prelude.{◌≡◌, ◌++◌, ◌&&◌, ◌==◌, length, OnOk};
ghost use Rattle.anti_text.specs.Calls.{look_text, over_text, reply_text, row_text, rows_text, taken_text, version_text};

use crate::call_words::{handler_and_rest, kind_text, value_and_baggage};
use crate::output::Output;
use crate::printer::Printer;
use crate::words::quoted;
use anti_ids::{Lineage, Name, NoMemory};
use anti_kind::{Handle, Message, MessageKind, Reply, Row};

// Writes a message as it is taken.
fn taken_text(
    out: &mut Output,
    printer: &Printer,
    number: u32,
    message: &Message,
    kind: MessageKind,
) -> Result<(), NoMemory>
    ensures { OnOk result (out.new ≡ out.old
        ++ taken_text printer.now.app.now number message.now kind) }
{
    match kind {
        MessageKind::Reply => value_and_baggage(out, printer, message),
        MessageKind::Request | MessageKind::Call | MessageKind::Send => {
            out.number(u64::from(number))?;
            out.put_all(&[b" ", kind_text(kind), b" "])?;
            handler_and_rest(out, printer, message)
        }
    }
}

// Writes a key with its version.
fn version_text(out: &mut Output, key: &Name, version: u64) -> Result<(), NoMemory>
    ensures { OnOk result (out.new ≡ out.old ++ version_text key.now version) }
{
    out.put(key.bytes())?;
    out.numbered(b"@", version)
}

fn row_text(out: &mut Output, printer: &Printer, row: &Row) -> Result<(), NoMemory>
    ensures { OnOk result (out.new ≡ out.old ++ row_text printer.now.app.now row.now) }
{
    if row.version == 0 {
        return out.put_all(&[row.key.bytes(), b"@0"]);
    }
    version_text(out, &row.key, row.version)?;
    out.put(b" ")?;
    quoted(out, row.value.bytes())?;
    out.put(b" ")?;
    printer.lineage(out, &row.lineage)
}

fn rows_text(out: &mut Output, printer: &Printer, rows: &[Row]) -> Result<(), NoMemory>
    ensures { OnOk result (out.new ≡ out.old ++ rows_text printer.now.app.now rows.now) }
{
    let Some((first, rest)) = rows.split_first() else {
        return out.put(b"none");
    };
    row_text(out, printer, first)?;
    for row in rest {
        out.put(b" + ")?;
        row_text(out, printer, row)?;
    }
    Ok(())
}

// Whether a look named nothing.
fn are_empty(missing: &Lineage, unwritten: &Lineage) -> bool
    ensures { result ≡ ((length missing.now == 0) && (length unwritten.now == 0)) }
{
    missing.is_empty() && unwritten.is_empty()
}

// Writes what a look named.
fn look_text(
    out: &mut Output,
    printer: &Printer,
    missing: &Lineage,
    unwritten: &Lineage,
) -> Result<(), NoMemory>
    ensures { OnOk result
        (out.new ≡ out.old ++ look_text printer.now.app.now missing.now unwritten.now) }
{
    if are_empty(missing, unwritten) {
        return out.put(b"clear");
    }
    out.put(b"missing ")?;
    printer.lineage(out, missing)?;
    out.put(b" unwritten ")?;
    printer.lineage(out, unwritten)
}

// Writes what is kept beside a write, where that is more than it handed in.
fn over_text(
    out: &mut Output,
    printer: &Printer,
    over: &Option<Handle<Lineage>>,
) -> Result<(), NoMemory>
    ensures { OnOk result (out.new ≡ out.old ++ over_text printer.now.app.now over.now) }
{
    match over {
        Some(kept) => {
            out.put(b" over ")?;
            printer.lineage(out, kept.get())
        }
        None => Ok(()),
    }
}

/// Writes a reply.
pub fn reply_text(out: &mut Output, printer: &Printer, reply: &Reply) -> Result<(), NoMemory>
    ensures { OnOk result (out.new ≡ out.old ++ reply_text printer.now.app.now reply.now) }
{
    match reply {
        Reply::Written { key, version, over } => {
            version_text(out, key.get(), *version)?;
            over_text(out, printer, over)
        }
        Reply::Shown(rows) => rows_text(out, printer, rows.as_slice()),
        Reply::Missing { missing, unwritten } => look_text(
            out,
            printer,
            missing.get(),
            unwritten.get(),
        ),
        Reply::Moved => out.put(b"moved"),
        Reply::Pulled(row) => row_text(out, printer, row.get()),
        Reply::Posted(number) => out.numbered(b"posted ", u64::from(*number)),
        Reply::Got { number, message } => {
            out.put(b"got ")?;
            taken_text(out, printer, *number, message.get(), message.get().kind)
        }
        Reply::Done => out.put(b"done"),
    }
}
