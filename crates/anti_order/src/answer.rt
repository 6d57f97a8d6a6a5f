use crate::pieces::Marks;
use anti_ids::List;
use anti_past::Span;
use anti_trace::Mark;

/// What is answered of reads of a trace.
#[derive(Drop)]
pub enum OrderAnswer {
    /// Some entry of the trace loses an id; this is the first.
    Lossy(Mark),
    /// No entry loses an id, but some of the reads are not settled; this is the first.
    Unguarded(Mark),
    /// The order that explains the reads: all writes of the trace and the reads.
    Order(Marks),
}

/// A span with a read, and what is answered of its reads.
pub struct SpanAnswer {
    pub span: Span,
    pub answer: OrderAnswer,
}

// By hand, so that no caller sees the fields.
impl Drop for SpanAnswer {
    fn drop(self) {
        let SpanAnswer { span, answer } = self;
        drop(span);
        drop(answer);
    }
}

/// A list of answers, by spans.
pub type SpanAnswers = List<SpanAnswer>;
