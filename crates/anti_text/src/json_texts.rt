ghost use Rattle.std.specs.Prelude.{◌≡◌, ◌++◌, OnOk, decimal};
ghost use Rattle.serde_json.specs.Written.{compact_text};
ghost use Rattle.anti_text.specs.Calls.{call_text, reply_text};
ghost use Rattle.anti_text.specs.Entries.{actor_name, choice_numbered};
ghost use Rattle.anti_text.specs.Json.{text};
ghost use Rattle.anti_text.specs.Processes.{end_text};
ghost use Rattle.anti_text.specs.Spans.{answer_text, span_name};
ghost use Rattle.anti_text.specs.Words.{handler_name, mark_text, object_name, service_name};

use crate::call_words::call_text;
use crate::entry_lines::actor_name;
use crate::json_strings::{close_string, open_string, put_string};
use crate::output::Output;
use crate::printer::Printer;
use crate::process_lines::end_text;
use crate::reply_words::reply_text;
use crate::span_lines::span_name;
use crate::wait_lines::choice_numbered;
use crate::words::{handler_name, mark_text, object_name, service_name};
use anti_ids::NoMemory;
use anti_kind::{Actor, Call, Reply};
use anti_order::OrderAnswer;
use anti_past::Span;
use anti_proc::End;

/// Adds some text and a number.
pub fn add_number(out: &mut Output, before: &[u8], number: u64) -> Result<(), NoMemory>
    ensures { OnOk result (out.new ≡ out.old ++ before.now ++ decimal number) }
{
    out.numbered(before, number)
}

/// Adds some text and who made an entry.
pub fn add_actor(
    out: &mut Output,
    printer: &Printer,
    before: &[u8],
    actor: Actor,
) -> Result<(), NoMemory>
    ensures { OnOk result
        (out.new ≡ out.old ++ before.now ++ compact_text (text (actor_name printer.now.app.now actor))) }
{
    let begun = open_string(out, before)?;
    actor_name(out, printer.app, actor)?;
    close_string(out, printer.alloc, begun)
}

/// Adds some text and the words of a call on an object.
pub fn add_call(
    out: &mut Output,
    printer: &Printer,
    before: &[u8],
    object: u32,
    call: &Call,
) -> Result<(), NoMemory>
    ensures { OnOk result
        (out.new ≡ out.old ++ before.now ++ compact_text (text (call_text printer.now.app.now object call.now))) }
{
    let begun = open_string(out, before)?;
    call_text(out, printer, object, call)?;
    close_string(out, printer.alloc, begun)
}

/// Adds some text and the name of an object.
pub fn add_object(
    out: &mut Output,
    printer: &Printer,
    before: &[u8],
    object: u32,
) -> Result<(), NoMemory>
    ensures { OnOk result
        (out.new ≡ out.old ++ before.now ++ compact_text (text (object_name printer.now.app.now object))) }
{
    let name = object_name(printer.app, object);
    put_string(out, printer.alloc, before, name)
}

/// Adds some text and the words of a reply.
pub fn add_reply(
    out: &mut Output,
    printer: &Printer,
    before: &[u8],
    reply: &Reply,
) -> Result<(), NoMemory>
    ensures { OnOk result
        (out.new ≡ out.old ++ before.now ++ compact_text (text (reply_text printer.now.app.now reply.now))) }
{
    let begun = open_string(out, before)?;
    reply_text(out, printer, reply)?;
    close_string(out, printer.alloc, begun)
}

/// Adds some text and how a process ended.
pub fn add_end(
    out: &mut Output,
    printer: &Printer,
    before: &[u8],
    end: Option<End>,
) -> Result<(), NoMemory>
    ensures { OnOk result
        (out.new ≡ out.old ++ before.now ++ compact_text (text (end_text printer.now.app.now end))) }
{
    let begun = open_string(out, before)?;
    end_text(out, printer.app, end)?;
    close_string(out, printer.alloc, begun)
}

/// Adds some text and the name of a handler of a service.
pub fn add_handler(
    out: &mut Output,
    printer: &Printer,
    before: &[u8],
    service: usize,
    handler: usize,
) -> Result<(), NoMemory>
    ensures { OnOk result
        (out.new ≡ out.old ++ before.now ++ compact_text (text (handler_name printer.now.app.now service handler))) }
{
    let name = handler_name(printer.app, service, handler);
    put_string(out, printer.alloc, before, name)
}

/// Adds some text and a place on an object.
pub fn add_mark(
    out: &mut Output,
    printer: &Printer,
    before: &[u8],
    object: u32,
    place: u32,
) -> Result<(), NoMemory>
    ensures { OnOk result
        (out.new ≡ out.old ++ before.now ++ compact_text (text (mark_text printer.now.app.now object place))) }
{
    let begun = open_string(out, before)?;
    mark_text(out, printer.app, object, place)?;
    close_string(out, printer.alloc, begun)
}

/// Adds some text and the name of a service.
pub fn add_service(
    out: &mut Output,
    printer: &Printer,
    before: &[u8],
    service: usize,
) -> Result<(), NoMemory>
    ensures { OnOk result
        (out.new ≡ out.old ++ before.now ++ compact_text (text (service_name printer.now.app.now service))) }
{
    let name = service_name(printer.app, service);
    put_string(out, printer.alloc, before, name)
}

/// Adds some text and what is answered of the reads of a span.
pub fn add_answer(
    out: &mut Output,
    printer: &Printer,
    before: &[u8],
    answer: &OrderAnswer,
) -> Result<(), NoMemory>
    ensures { OnOk result
        (out.new ≡ out.old ++ before.now ++ compact_text (text (answer_text printer.now.app.now answer.now))) }
{
    let begun = open_string(out, before)?;
    printer.answer(out, answer)?;
    close_string(out, printer.alloc, begun)
}

/// Adds some text and a span.
pub fn add_span(
    out: &mut Output,
    printer: &Printer,
    before: &[u8],
    span: Span,
) -> Result<(), NoMemory>
    ensures { OnOk result
        (out.new ≡ out.old ++ before.now ++ compact_text (text (span_name printer.now.app.now span))) }
{
    let begun = open_string(out, before)?;
    span_name(out, printer.app, span)?;
    close_string(out, printer.alloc, begun)
}

/// Adds some text and a choice, by its number.
pub fn add_choice(
    out: &mut Output,
    printer: &Printer,
    before: &[u8],
    number: u32,
) -> Result<(), NoMemory>
    ensures { OnOk result
        (out.new ≡ out.old ++ before.now ++ compact_text (text (choice_numbered printer.now.app.now number))) }
{
    let begun = open_string(out, before)?;
    choice_numbered(out, printer.app, number)?;
    close_string(out, printer.alloc, begun)
}
