ghost use Rattle.anti_text.specs.Json.{entry_data, process_data, span_data, wait_data};

use crate::json_texts::{
    add_actor, add_answer, add_call, add_choice, add_end, add_handler, add_mark, add_number,
    add_object, add_reply, add_service, add_span,
};
use crate::output::Output;
use crate::printer::Printer;
use anti_ids::NoMemory;
use anti_kind::Entry;
use anti_order::SpanAnswer;
use anti_trace::ProcessEnd;

/// What stands in a list of the record.
pub trait Item {
    ghost use Rattle.std.specs.Prelude.{◌≡◌, ◌++◌, OnOk};
    ghost use Rattle.serde_json.specs.Data.{Data};
    ghost use Rattle.serde_json.specs.Written.{compact_text};
    ghost use Rattle.anti_app.specs.declared.app.App.{App};

    ghost says: { App → Self → Data };

    /// Adds it as JSON at the end.
    fn print(&self, out: &mut Output, printer: &Printer) -> Result<(), NoMemory>
        ensures { OnOk result
            (out.new ≡ out.old ++ compact_text (says printer.now.app.now self.now)) };
}

impl Item for Entry {
    ghost says = { entry_data };

    fn print(&self, out: &mut Output, printer: &Printer) -> Result<(), NoMemory> {
        add_actor(out, printer, b"{\"actor\":", self.actor)?;
        add_call(out, printer, b",\"call\":", self.object, &self.call)?;
        add_object(out, printer, b",\"object\":", self.object)?;
        add_number(out, b",\"place\":", u64::from(self.place))?;
        add_reply(out, printer, b",\"reply\":", &self.reply)?;
        add_number(out, b",\"span\":", u64::from(self.span))?;
        add_number(out, b",\"stamp\":", self.stamp)?;
        out.put(b"}")
    }
}

impl Item for ProcessEnd {
    ghost says = { process_data };

    fn print(&self, out: &mut Output, printer: &Printer) -> Result<(), NoMemory> {
        add_end(out, printer, b"{\"end\":", self.end)?;
        add_handler(out, printer, b",\"handler\":", self.service, self.handler)?;
        add_mark(
            out,
            printer,
            b",\"name\":",
            self.birth.object,
            self.birth.place,
        )?;
        add_service(out, printer, b",\"service\":", self.service)?;
        out.put(b"}")
    }
}

impl Item for SpanAnswer {
    ghost says = { span_data };

    fn print(&self, out: &mut Output, printer: &Printer) -> Result<(), NoMemory> {
        add_answer(out, printer, b"{\"answer\":", &self.answer)?;
        add_span(out, printer, b",\"name\":", self.span)?;
        out.put(b"}")
    }
}

// A choice that made no entry, by its number.
impl Item for u32 {
    ghost says = { wait_data };

    fn print(&self, out: &mut Output, printer: &Printer) -> Result<(), NoMemory> {
        add_choice(out, printer, b"{\"choice\":", *self)?;
        add_number(out, b",\"number\":", u64::from(*self))?;
        out.put(b"}")
    }
}
