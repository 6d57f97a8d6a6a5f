ghost use Rattle.std.specs.Prelude.{◌≡◌, ◌++◌, IfOk, OnOk};
ghost use Rattle.anti_app.specs.Objects.{store_names};
ghost use Rattle.anti_text.specs.Spans.{answer_text, answered_line, spaced_mark};
ghost use Rattle.anti_text.specs.Calls.{carried_text};
ghost use Rattle.anti_text.specs.Words.{lineage_text};

use crate::id_texts::IdTexts;
use crate::mark_texts::MarkTexts;
use crate::output::Output;
use crate::span_lines::{answer_text, answered_line};
use anti_app::{App, store_names};
use anti_baggage::BaggageFault;
use anti_ids::{Lineage, NoMemory};
use anti_kind::{Entry, Message};
use anti_order::{OrderAnswer, SpanAnswer};
use anti_report::Report;
use anti_trace::Mark;
use std::alloc::Global;

// The most names over which baggage is read: their numbers fit in 32 bits.
const MOST_NAMES: usize = 1 << 32;

/// What the lines of a record are printed of: an application, and the texts that come again and again, each made once.
#[derive(Drop)]
pub struct Printer<'a> {
    pub alloc: Global,
    /// The application.
    pub app: &'a App,
    ids: IdTexts,
    marks: MarkTexts<'a>,
    ghost named: { ids.stores.items ≡ store_names app.now },
    ghost marked: { marks.app.now ≡ app.now },
}

/// The marks of all writes, which the orders among answers of a trace share; none where there is no order.
pub fn marked(spans: &[SpanAnswer]) -> &[Mark] {
    for answered in spans {
        if let OrderAnswer::Order(marks) = &answered.answer {
            return marks.pieces().writes;
        }
    }
    &[]
}

impl<'a> Printer<'a> {
    /// What prints the record of a report of an application.
    pub fn new(alloc: Global, app: &'a App, report: &Report) -> Result<Printer<'a>, NoMemory>
        ensures { IfOk result (λ printer. printer.app.now ≡ app.now) }
    {
        let writes = marked(report.spans.as_slice());
        Printer::of(alloc, app, report.trace.as_slice(), writes)
    }

    /// What prints entries of a trace, and orders that share the marks of these writes.
    pub fn of(
        alloc: Global,
        app: &'a App,
        trace: &[Entry],
        writes: &[Mark],
    ) -> Result<Printer<'a>, NoMemory>
        ensures { IfOk result (λ printer. printer.app.now ≡ app.now) }
    {
        let stores = store_names(alloc, app)?;
        let objects = app.stores.len().saturating_add(app.services.len());
        let ids = IdTexts::of(alloc, stores, objects, trace)?;
        let marks = MarkTexts::of(alloc, app, writes)?;
        Ok(Printer {
            alloc,
            app,
            ids,
            marks,
        })
    }

    /// Writes a lineage.
    pub fn lineage(&self, out: &mut Output, lineage: &Lineage) -> Result<(), NoMemory>
        ensures { OnOk result (out.new ≡ out.old ++ lineage_text self.now.app.now lineage.now) }
    {
        self.ids.lineage(out, lineage)
    }

    /// Writes the lineage that a message carries; nothing where its text states none.
    pub fn carried(&self, out: &mut Output, message: &Message) -> Result<(), NoMemory>
        ensures { OnOk result
            (out.new ≡ out.old ++ carried_text self.now.app.now message.now) }
    {
        let stores = self.ids.stores.as_slice();
        if let Some(told) = message.baggage.told(stores) {
            return match told.text_one {
                Some(text) => out.put(text),
                None => self.lineage(out, told.lineage),
            };
        }
        if stores.len() > MOST_NAMES {
            return Err(NoMemory); // a document has far fewer
        }
        match message.baggage.lineage(self.alloc, stores) {
            Ok(lineage) => self.lineage(out, &lineage),
            Err(BaggageFault::NoMemory) => Err(NoMemory),
            Err(_) => Ok(()),
        }
    }

    /// Writes what is answered of the reads of a span.
    pub fn answer(&self, out: &mut Output, answer: &OrderAnswer) -> Result<(), NoMemory>
        ensures { OnOk result
            (out.new ≡ out.old ++ answer_text self.now.app.now answer.now) }
    {
        answer_text(out, &self.marks, answer)
    }

    /// Writes a word, a span, and what is answered of its reads, as a line.
    pub fn answered(
        &self,
        out: &mut Output,
        word: &[u8],
        answered: &SpanAnswer,
    ) -> Result<(), NoMemory>
        ensures { OnOk result
            (out.new ≡ out.old ++ answered_line word.now self.now.app.now answered.now) }
    {
        answered_line(out, &self.marks, word, answered)
    }
}
