// The top call in memory: what it is given, and what it has to come to.

use anti_command::antipode_plain;
use anti_edge::{MemorySink, MemorySource};
use anti_ids::{Bytes, List, Value};
use std::alloc::Global;
use std::process::Abort;

/// A document with one store and nothing else.
pub const STORE_ALONE: &[u8] =
    b"regions = [\"us\"]\n[[store]]\nname = \"s\"\nkind = \"kv\"\nreplicas = [\"us\"]\n";

/// The record of a run without choices.
pub const NOTHING_HAPPENED: &[u8] = b"record 1\nend 0\n";

/// The same as JSON.
pub const NOTHING_AS_JSON: &[u8] =
    b"{\"end\":0,\"entries\":[],\"processes\":[],\"record\":1,\"spans\":[],\"waits\":[]}\n";

/// A call, and what it has to come to.
#[derive(Clone, Copy)]
pub struct CallRow<'a> {
    /// The one word.
    pub word: &'a [u8],
    /// What the source has.
    pub document: &'a [u8],
    /// How many bytes the source and the sinks move at most in one call.
    pub most: u32,
    /// Which read fails, or 0 where none does.
    pub read_fails: u32,
    /// Which write of the text fails, or 0.
    pub write_fails: u32,
    /// Which write of the line fails, or 0.
    pub line_fails: u32,
    /// The status.
    pub status: u8,
    /// What is written, or its end.
    pub out: &'a [u8],
    /// Whether more may be written before `out`.
    pub more: bool,
    /// The line that is told.
    pub err: &'a [u8],
}

/// A call with the word `step` on an empty document, of whose reads and writes none fails.
pub const STEP: CallRow = CallRow {
    word: b"step",
    document: b"",
    most: 10,
    read_fails: 0,
    write_fails: 0,
    line_fails: 0,
    status: 0,
    out: b"",
    more: false,
    err: b"",
};

/// The same, for `assert_texts`: the text beside a document is its whole record.
pub static PLAYED: CallRow = STEP;

/// The same where the text is the end of a long record.
pub static ENDED: CallRow = CallRow {
    most: 5000,
    more: true,
    ..STEP
};

/// The same of documents that are refused: the text is the line that is told.
pub static REFUSED: CallRow = CallRow { status: 5, ..STEP };

/// A call with the word `step` on a document, with what it has to come to.
pub fn step<'a>(document: &'a [u8], status: u8, out: &'a [u8], err: &'a [u8]) -> CallRow<'a> {
    CallRow {
        document,
        status,
        out,
        err,
        ..STEP
    }
}

// The words as values. `None` where memory runs out.
fn values(alloc: Global, words: &[&[u8]]) -> Option<List<Value>> {
    let mut list = List::new(alloc);
    for word in words {
        let Ok(value) = Value::new(alloc, word) else {
            return None;
        };
        let Ok(()) = list.add(value) else {
            return None;
        };
    }
    Some(list)
}

// Whether what was written is what the row wants.
fn is_written(row: &CallRow, written: &[u8]) -> bool {
    if row.more {
        written.ends_with(row.out)
    } else {
        written == row.out
    }
}

// The status of a call.
fn status_of(
    alloc: Global,
    words: &[Value],
    src: &mut MemorySource,
    out: &mut MemorySink,
    err: &mut MemorySink,
) -> u8 {
    antipode_plain(alloc, words, src, out, err).status
}

// Whether a call with these words, this source and this sink of the text has the status and the line that the row wants. `false` where
// memory runs out, too, as in the two below.
fn is_told(
    alloc: Global,
    words: &[Value],
    src: &mut MemorySource,
    out: &mut MemorySink,
    row: &CallRow,
) -> bool {
    match MemorySink::new(alloc, 1000, row.most.max(1), &[row.line_fails]) {
        Ok(mut err) => {
            status_of(alloc, words, src, out, &mut err) == row.status && err.bytes() == row.err
        }
        Err(_) => false,
    }
}

// The same, and whether the text is what the row wants.
fn is_told_and_written(
    alloc: Global,
    words: &[Value],
    src: &mut MemorySource,
    row: &CallRow,
) -> bool {
    match MemorySink::new(alloc, 4_000_000, row.most.max(1), &[row.write_fails]) {
        Ok(mut out) => is_told(alloc, words, src, &mut out, row) && is_written(row, out.bytes()),
        Err(_) => false,
    }
}

// The same of a source that has the document.
fn reads(alloc: Global, words: &[Value], document: &[u8], row: &CallRow) -> bool {
    match MemorySource::new(alloc, document, row.most.max(1), &[row.read_fails]) {
        Ok(mut src) => is_told_and_written(alloc, words, &mut src, row),
        Err(_) => false,
    }
}

/// Whether the call with these words and on this document, in place of the row's own, comes to what the row wants. `false` where memory runs
/// out, too.
pub fn comes_to(alloc: Global, words: &[&[u8]], document: &[u8], row: &CallRow) -> bool {
    match values(alloc, words) {
        Some(words) => reads(alloc, words.as_slice(), document, row),
        None => false,
    }
}

/// Whether the call comes to what the row wants. `false` where memory runs out, too.
pub fn is_so(alloc: Global, row: &CallRow) -> bool {
    comes_to(alloc, &[row.word], row.document, row)
}

// An assertion in a test is proved with the test: these are proved once.

/// Asserts what is to hold.
pub fn assert_so(rt: &impl Abort, holds: bool) {
    assert!(rt; holds);
}

/// Asserts what is to hold of a text.
pub fn assert_of(rt: &impl Abort, text: &str, holds: bool) {
    assert!(rt; holds, "at {text}");
}

/// Asserts what is to hold of the row of a table at this place, counted from 0.
pub fn assert_at(rt: &impl Abort, place: usize, holds: bool) {
    assert!(rt; holds, "at row {place}");
}

/// Asserts that each call comes to what its row wants.
pub fn assert_rows(rt: &impl Abort, alloc: Global, rows: &[CallRow]) {
    for (place, row) in rows.iter().enumerate() {
        assert_at(rt, place, is_so(alloc, row));
    }
}

// Whether a call like this, but none of whose reads and writes fails, comes to a text on a document: what is written or, where the status is
// not 0, the line of the fault. `false` where memory runs out, too.
fn comes_to_text(alloc: Global, call: &CallRow, document: &[u8], text: &[u8]) -> bool {
    let nothing: &[u8] = b"";
    let (out, err) = if call.status == 0 {
        (text, nothing)
    } else {
        (nothing, text)
    };
    let row = CallRow {
        most: call.most,
        status: call.status,
        out,
        more: call.more,
        err,
        ..STEP
    };
    comes_to(alloc, &[call.word], document, &row)
}

/// Asserts that a call like this, but none of whose reads and writes fails, comes on each document to the text beside it: what is written or,
/// where the status is not 0, the line of the fault.
pub fn assert_texts(rt: &impl Abort, alloc: Global, call: &CallRow, texts: &[(&str, &str)]) {
    for (document, text) in texts {
        let is_so = comes_to_text(alloc, call, document.as_bytes(), text.as_bytes());
        assert_of(rt, document, is_so);
    }
}

// The frame with a text in place of the `@`. `None` where it has none or memory runs out.
fn framed(alloc: Global, frame: &str, text: &str) -> Option<Bytes> {
    let Some((front, back)) = frame.split_once('@') else {
        return None;
    };
    let mut document = Bytes::new(alloc);
    for piece in [front, text, back] {
        let Ok(()) = document.append(piece.as_bytes()) else {
            return None;
        };
    }
    Some(document)
}

// Whether a case of `assert_refused` is so.
fn is_refused(alloc: Global, frame: &str, case: &str) -> bool {
    let Some((text, line)) = case.split_once(" => ") else {
        return false;
    };
    match framed(alloc, frame, text) {
        Some(document) => comes_to_text(alloc, &REFUSED, document.bytes(), line.as_bytes()),
        None => false,
    }
}

/// Asserts that documents are refused. Each line of the table has what stands in one of them in place of the `@` of the frame, and behind the
/// arrow the line that is told.
pub fn assert_refused(rt: &impl Abort, alloc: Global, frame: &str, table: &str) {
    for case in table.split_inclusive('\n') {
        assert_of(rt, case, is_refused(alloc, frame, case));
    }
}

/// A document with one store, requests, and a service with the handlers `one` and `two`. Where no requests are given there are two, one to
/// each handler.
macro_rules! served {
    ($choices:literal, $one:literal, $two:literal) => {
        served!(
            "{service = 'w', handler = 'one'}, {service = 'w', handler = 'two'}",
            $choices,
            $one,
            $two
        )
    };
    ($requests:literal, $choices:literal, $one:literal, $two:literal) => {
        concat!(
            "choices = [",
            $choices,
            "]
regions = ['eu']
store = [{name = 's', kind = 'kv', replicas = ['eu']}]
request = [",
            $requests,
            "]
[[service]]
name = 'w'
region = 'eu'
handler = [{name = 'one', body = [",
            $one,
            "]}, {name = 'two', body = [",
            $two,
            "]}]"
        )
    };
}

pub(crate) use served;
