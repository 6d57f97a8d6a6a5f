ghost use Rattle.std.specs.Prelude.{◌≡◌, [], ◌∷◌, cond, length, Some, IfOk, OnOk};
ghost use Rattle.anti_past.specs.Told.{AreReadsBySpan};
ghost use Rattle.anti_past.specs.Spans.{AreSpansOf};
ghost use Rattle.anti_past.specs.declared.span_keys.SpanKey.{SpanKey};
ghost use Rattle.anti_past.specs.inner.Keys.{is_read_in, same_key};
ghost use Rattle.anti_past.specs.inner.Reading.{AreNoted, noted_for, with_place};

use crate::span_keys::{SpanKey, read_key};
use anti_ids::{List, NoMemory};
use anti_kind::{Birth, Entry};
use anti_trace::Trace;
use std::alloc::Global;
use std::collections::BTreeMap;

/// A span of a process: the entry that started the process, and the number of the span, counted from 1.
#[derive(Clone, Copy, PartialEq, Eq)]
pub struct Span {
    pub birth: Birth,
    pub span: u32,
}

/// A list of spans.
pub type Spans = List<Span>;

/// A span, and the places of its reads in the trace, which ascend.
#[derive(Drop)]
pub struct ReadsOfSpan {
    pub span: Span,
    pub reads: Vec<u32>,
}

// Notes the first index of a span.
fn note_first(
    alloc: Global,
    noted: &mut BTreeMap<SpanKey, Vec<u32>>,
    key: SpanKey,
    index: u32,
) -> Result<(), NoMemory>
    ensures { (q : SpanKey) → OnOk result (noted_for noted.new q
        ≡ cond (same_key key q) (Some (index ∷ [])) (noted_for noted.old q)) }
{
    let mut reads = Vec::new(alloc);
    reads.push(index)?;
    match noted.insert(key, reads) {
        Ok(_) => Ok(()),
        Err(_) => Err(NoMemory),
    }
}

/// Notes an index under a span, behind what is noted there. The only error is want of memory.
pub fn note_under(
    alloc: Global,
    noted: &mut BTreeMap<SpanKey, Vec<u32>>,
    key: SpanKey,
    index: u32,
) -> Result<(), NoMemory>
    ensures { (q : SpanKey) → OnOk result (noted_for noted.new q
        ≡ with_place (same_key key q) index (noted_for noted.old q)) }
{
    match noted.get_mut(&key) {
        Some(reads) => match reads.push(index) {
            Ok(()) => Ok(()),
            Err(_) => Err(NoMemory),
        },
        None => note_first(alloc, noted, key, index),
    }
}

// Notes the index of an entry under its span, where it is a read of a process.
fn note_read(
    alloc: Global,
    noted: &mut BTreeMap<SpanKey, Vec<u32>>,
    index: u32,
    entry: &Entry,
) -> Result<(), NoMemory>
    ensures { (q : SpanKey) → OnOk result (noted_for noted.new q
        ≡ with_place (is_read_in q entry.now) index (noted_for noted.old q)) }
{
    match read_key(entry) {
        Some(key) => note_under(alloc, noted, key, index),
        None => Ok(()),
    }
}

// The places of the reads of a trace, under their spans.
fn noted_reads(alloc: Global, trace: &Trace) -> Result<BTreeMap<SpanKey, Vec<u32>>, NoMemory>
    ensures { IfOk result (AreNoted is_read_in trace.now (length trace.now)) }
{
    let mut noted = BTreeMap::new(alloc);
    for index in 0..trace.len() {
        note_read(alloc, &mut noted, index, trace.at(index))?;
    }
    Ok(noted)
}

/// The reads of each span in which something was read, in the order of `spans`. The only error is want of memory.
pub fn reads_by_span(alloc: Global, trace: &Trace) -> Result<Vec<ReadsOfSpan>, NoMemory>
    ensures { IfOk result (λ spans. AreReadsBySpan trace.now spans.items) }
{
    let mut spans = Vec::new(alloc);
    for (key, reads) in noted_reads(alloc, trace)? {
        let span = Span {
            birth: key.birth(),
            span: key.span,
        };
        spans.push(ReadsOfSpan { span, reads })?;
    }
    Ok(spans)
}

/// The spans in which something was read, by the objects and places of the births of their processes, and by their numbers. The only error
/// is want of memory.
pub fn spans(alloc: Global, trace: &Trace) -> Result<Spans, NoMemory>
    ensures { IfOk result (λ spans. AreSpansOf trace.now spans.items) }
{
    let listed = reads_by_span(alloc, trace)?;
    let mut spans = List::new(alloc);
    for reads in listed.as_slice() {
        match spans.push(reads.span) {
            Ok(()) => {}
            Err(_) => return Err(NoMemory),
        }
    }
    Ok(spans)
}
