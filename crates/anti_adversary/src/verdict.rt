use anti_doctor::SpanDiagnosis;
use anti_ids::List;
use anti_order::SpanAnswer;
use anti_trace::{Mark, Trace};

/// The run of the choices of an application, each of which makes an entry.
pub struct Shown {
    /// The marks of the entries, in the order of the choices.
    pub marks: List<Mark>,
    /// What happened.
    pub trace: Trace,
}

// By hand, so that no caller sees the fields.
impl Drop for Shown {
    fn drop(self) {
        let Shown { marks, trace } = self;
        drop(marks);
        drop(trace);
    }
}

/// A run in which something is missing, though no read of it need miss a write: a span, and the entry that bars an order of its reads.
pub struct Hint {
    pub shown: Shown,
    pub answer: SpanAnswer,
}

// By hand, so that no caller sees the fields.
impl Drop for Hint {
    fn drop(self) {
        let Hint { shown, answer } = self;
        drop(shown);
        drop(answer);
    }
}

/// What a search says of an application.
#[derive(Drop)]
pub enum Verdict {
    /// It is placed, so that no read of any of its runs misses a write. Nothing was played.
    Placed,
    /// In the run of the schedule of this number, counted from 1, reads missed writes. The run that is shown is a short one of that kind.
    Found {
        number: u32,
        shown: Shown,
        missed: SpanDiagnosis,
    },
    /// In the run of the schedule of this number, which has so many entries, reads missed writes, and a run that is short enough for a document
    /// was found in none.
    Long {
        number: u32,
        entries: u32,
        missed: SpanDiagnosis,
    },
    /// So many runs were played whole, and no read of any of them missed a write. Where one was unguarded or lossy it may be shown.
    Tried {
        runs: u32,
        hint: Option<Hint>,
    },
}
