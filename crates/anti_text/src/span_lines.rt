ghost use Rattle.std.specs.Prelude.{◌≡◌, ◌++◌, OnOk};
ghost use Rattle.anti_text.specs.Spans.{answer_text, answered_line, span_name};

use crate::mark_texts::MarkTexts;
use crate::output::Output;
use crate::words::{mark_text, spaced_mark};
use anti_app::App;
use anti_ids::NoMemory;
use anti_order::{OrderAnswer, SpanAnswer};
use anti_past::Span;
use itoa::Buffer;

/// Writes what is answered of the reads of a span.
pub fn answer_text(
    out: &mut Output,
    texts: &MarkTexts,
    answer: &OrderAnswer,
) -> Result<(), NoMemory>
    ensures { OnOk result (out.new ≡ out.old ++ answer_text texts.now.app.now answer.now) }
{
    match answer {
        OrderAnswer::Lossy(mark) => {
            out.put(b"lossy")?;
            spaced_mark(out, texts.app, *mark)
        }
        OrderAnswer::Unguarded(mark) => {
            out.put(b"unguarded")?;
            spaced_mark(out, texts.app, *mark)
        }
        OrderAnswer::Order(marks) => {
            out.put(b"order")?;
            texts.marks(out, marks)
        }
    }
}

/// Writes a span: the place of the birth of its process, and its number.
pub fn span_name(out: &mut Output, app: &App, span: Span) -> Result<(), NoMemory>
    ensures { OnOk result (out.new ≡ out.old ++ span_name app.now span) }
{
    mark_text(out, app, span.birth.object, span.birth.place)?;
    let mut digits = Buffer::new();
    out.put_all(&[b"/", digits.format(span.span).as_bytes()])
}

/// Writes a word, a span, and what is answered of its reads, as a line.
pub fn answered_line(
    out: &mut Output,
    texts: &MarkTexts,
    word: &[u8],
    answered: &SpanAnswer,
) -> Result<(), NoMemory>
    ensures { OnOk result (out.new ≡ out.old ++ answered_line word.now texts.now.app.now answered.now) }
{
    out.put(word)?;
    span_name(out, texts.app, answered.span)?;
    out.put(b" ")?;
    answer_text(out, texts, &answered.answer)?;
    out.put(b"\n")
}
