use anti_ids::List;
use anti_order::Marks;
use anti_past::Span;
use anti_trace::Mark;

/// A read, and a write that it missed: one that is causally before it, to a key that it speaks of, and of a version above the one that it
/// shows.
#[derive(Clone, Copy)]
pub struct Finding {
    pub read: Mark,
    pub write: Mark,
}

/// A list of findings.
pub type Findings = List<Finding>;

/// What is found of reads of a trace.
#[derive(Drop)]
pub enum Diagnosis {
    /// No read missed a write. This is an order that explains the reads: all writes of the trace and the reads.
    Sound(Marks),
    /// Reads missed writes, so no order explains them. Of each missed write the first read that missed it is told, in the order of the reads.
    Misses(Findings),
}

/// A span with a read, and what is found of its reads.
pub struct SpanDiagnosis {
    pub span: Span,
    pub diagnosis: Diagnosis,
}

// By hand, so that no caller sees the fields.
impl Drop for SpanDiagnosis {
    fn drop(self) {
        let SpanDiagnosis { span, diagnosis } = self;
        drop(span);
        drop(diagnosis);
    }
}

/// A list of diagnoses, by spans.
pub type SpanDiagnoses = List<SpanDiagnosis>;
