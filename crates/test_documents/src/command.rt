// The words of the top call, its faults, and each read and write that fails.

use crate::call_rows::{
    CallRow, NOTHING_AS_JSON, NOTHING_HAPPENED, STEP, STORE_ALONE, assert_at, assert_rows,
    comes_to, is_so, served, step,
};
use crate::past::WHOLE;
use anti_command::antipode_plain;
use anti_edge::{MemorySink, RealSource, SureSink, SureSource};
use anti_ids::{Bytes, LONGEST_DOCUMENT, Value};
use std::alloc::Global;
use std::io;
use std::io::Read;
use std::process::Abort;

// A process that writes, and reads what it wrote once that is shipped; and the record.
const WRITE_AND_READ: &str = served!(
    "'take w 1', 'go w.1', 'ship s eu 1', 'go w.1', 'go w.1'",
    "'write s k a', 'read s k as x'",
    ""
);

const WRITTEN_AND_READ: &[u8] = b"record 1
1 w.1 w.1/1 take 1 = got 1 request one 0 \"\" 1;
2 s.1 w.1/1 write k \"a\" 1; = k@1
3 s.2 ~0 ship eu 1 1 = moved
4 s.3 w.1/1 read eu k = k@1 \"a\" 1;
wait 5 go w.1
process w.1 w one fine
span w.1/1 unguarded s.3
end 4
";

// Words that ask for nothing.
static NO_COMMANDS: [&[&[u8]]; 20] = [
    &[],
    &[b"load"],
    &[b"load", b""],
    &[b"load", b"0"],
    &[b"load", b"401"],
    &[b"load", b"07"],
    &[b"load", b"+7"],
    &[b"load", b"7 "],
    &[b"load", b"4294967297"],
    &[b"load", b"all"],
    &[b"load", b"7", b"7"],
    &[b"place", b"7"],
    &[b"review", b"7"],
    &[b"counterexample", b"x"],
    &[b"counterexamples"],
    &[b"session", b"c.1"],
    &[b"doctor", b""],
    &[b"step", b"x"],
    &[b"step", b"json"],
    // no threads are at hand
    &[b"run"],
];

// What a call with such words comes to.
static USAGE: CallRow = CallRow {
    status: 2,
    err: b"usage\n",
    ..STEP
};

#[test]
fn words_that_are_no_command_are_told(rt: HostRuntime) {
    for (place, words) in NO_COMMANDS.iter().enumerate() {
        assert_at(&rt, place, comes_to(rt.alloc(), words, STORE_ALONE, &USAGE));
    }
}

// Calls of the top call, and what each comes to.
static ROWS: [CallRow; 18] = [
    CallRow {
        document: STORE_ALONE,
        out: NOTHING_HAPPENED,
        ..STEP
    },
    CallRow {
        word: b"",
        document: STORE_ALONE,
        status: 2,
        err: b"usage\n",
        ..STEP
    },
    CallRow {
        word: b"steps",
        document: STORE_ALONE,
        status: 2,
        err: b"usage\n",
        ..STEP
    },
    CallRow {
        word: b"--help",
        document: STORE_ALONE,
        status: 2,
        err: b"usage\n",
        ..STEP
    },
    CallRow {
        document: STORE_ALONE,
        read_fails: 2,
        status: 3,
        err: b"read fault\n",
        ..STEP
    },
    CallRow {
        document: STORE_ALONE,
        write_fails: 2,
        status: 4,
        out: b"record 1\ne",
        err: b"write fault\n",
        ..STEP
    },
    CallRow {
        document: STORE_ALONE,
        write_fails: 2,
        line_fails: 1,
        status: 4,
        out: b"record 1\ne",
        ..STEP
    },
    CallRow {
        word: b"json",
        document: STORE_ALONE,
        out: NOTHING_AS_JSON,
        ..STEP
    },
    CallRow {
        word: b"json",
        document: STORE_ALONE,
        write_fails: 2,
        status: 4,
        out: b"{\"end\":0,\"",
        err: b"write fault\n",
        ..STEP
    },
    CallRow {
        word: b"json",
        document: b"regions = [",
        status: 5,
        err: b"not toml\n",
        ..STEP
    },
    CallRow {
        document: b"regions = [",
        line_fails: 1,
        status: 5,
        ..STEP
    },
    CallRow {
        line_fails: 2,
        status: 5,
        err: b"app 2 top ",
        ..STEP
    },
    CallRow {
        document: b"regions = [",
        status: 5,
        err: b"not toml\n",
        ..STEP
    },
    CallRow {
        document: b"regions = [\"us\"] # \xff",
        status: 5,
        err: b"not toml\n",
        ..STEP
    },
    CallRow {
        document: b"regions = [\"us\"]\n",
        out: NOTHING_HAPPENED,
        ..STEP
    },
    CallRow {
        document: b"regions = [\"us\"]\n[[store]]\nname = \"s\"\nkind = \"file\"\nreplicas = [\"us\"]\n",
        status: 5,
        err: b"app 11 store 1 0\n",
        ..STEP
    },
    CallRow {
        document: b"choices = [\"go s\"]\nregions = [\"us\"]\n[[store]]\nname = \"s\"\nkind = \"kv\"\nreplicas = [\"us\"]\n",
        status: 5,
        err: b"choice 1\n",
        ..STEP
    },
    CallRow {
        document: b"regions = [\"us\"]\nchoices = [\"finish\"]\n",
        out: NOTHING_HAPPENED,
        ..STEP
    },
];

#[test]
fn runs_are_written_and_refusals_are_told(rt: HostRuntime) {
    assert_rows(&rt, rt.alloc(), &ROWS);
}

// So many bytes, and what a document of these comes to that has one store, and else a comment.
static LENGTHS: [(usize, CallRow); 2] = [
    (
        LONGEST_DOCUMENT as usize,
        CallRow {
            document: STORE_ALONE,
            most: 5000,
            out: NOTHING_HAPPENED,
            ..STEP
        },
    ),
    (
        LONGEST_DOCUMENT as usize + 1,
        CallRow {
            document: STORE_ALONE,
            most: 5000,
            status: 5,
            err: b"too long\n",
            ..STEP
        },
    ),
];

// Whether the row's document comes to what the row wants with a comment behind it, and so many bytes in all. `false` where memory runs out,
// too.
fn is_so_at(alloc: Global, length: usize, row: &CallRow) -> bool {
    let mut longer = Bytes::new(alloc);
    let Ok(()) = longer.append(row.document) else {
        return false;
    };
    for _ in row.document.len()..length {
        let Ok(()) = longer.append(b"#") else {
            return false;
        };
    }
    comes_to(alloc, &[row.word], longer.bytes(), row)
}

#[test]
fn a_longer_document_is_too_long(rt: HostRuntime) {
    for (place, (length, row)) in LENGTHS.iter().enumerate() {
        assert_at(&rt, place, is_so_at(rt.alloc(), *length, row));
    }
}

// Asserts that a failing read of the document is told, whichever it is: one for each byte, or the one at the end.
fn assert_reads(rt: &impl Abort, alloc: Global, document: &[u8]) {
    let mut read: u32 = 0;
    for place in 0..=document.len() {
        read = read.saturating_add(1);
        let row = CallRow {
            most: 1,
            read_fails: read,
            ..step(document, 3, b"", b"read fault\n")
        };
        assert_at(rt, place, is_so(alloc, &row));
    }
}

// Asserts that a failing write of a byte of the record is told, whichever it is, and that no line that can't be told changes that.
fn assert_writes<'a>(rt: &impl Abort, alloc: Global, document: &'a [u8], record: &'a [u8]) {
    let mut write: u32 = 0;
    for taken in 0..record.len() {
        write = write.saturating_add(1);
        let row = CallRow {
            most: 1,
            write_fails: write,
            ..step(document, 4, &record[..taken], b"write fault\n")
        };
        let untold = CallRow {
            line_fails: 1,
            err: b"",
            ..row
        };
        assert_at(rt, taken, is_so(alloc, &row) && is_so(alloc, &untold));
    }
}

#[test]
fn each_failing_read_and_write_is_told(rt: HostRuntime) {
    let alloc = rt.alloc();
    assert_reads(&rt, alloc, STORE_ALONE);
    assert_writes(&rt, alloc, STORE_ALONE, NOTHING_HAPPENED);
    assert_reads(&rt, alloc, WRITE_AND_READ.as_bytes());
    assert_writes(&rt, alloc, WRITE_AND_READ.as_bytes(), WRITTEN_AND_READ);
}

// Fronts of the whole application: none of it, and its first line.
static FRONTS: [CallRow; 2] = [
    CallRow {
        status: 5,
        err: b"app 2 top 0 0\n",
        ..STEP
    },
    CallRow {
        document: b"regions = ['us', 'eu', 'ap']\n",
        out: NOTHING_HAPPENED,
        ..STEP
    },
];

// The status of `step` on some bytes. `None` where memory runs out before the call.
fn status_on(alloc: Global, document: &[u8]) -> Option<u8> {
    let Ok(word) = Value::new(alloc, b"step") else {
        return None;
    };
    let Ok(mut src) = SureSource::new(alloc, document) else {
        return None;
    };
    let mut out = SureSink::new();
    let mut err = SureSink::new();
    Some(antipode_plain(alloc, &[word], &mut src, &mut out, &mut err).status)
}

#[test]
fn a_document_that_is_cut_is_read_so_far(rt: HostRuntime) {
    assert_rows(&rt, rt.alloc(), &FRONTS);
}

// Asserts that every second front of the whole application, from the one of so many bytes on, is played or refused.
fn assert_fronts(rt: &impl Abort, alloc: Global, first: usize) {
    let document = WHOLE.as_bytes();
    for length in 0..document.len() {
        if length % 2 != first {
            continue;
        }
        let is_ended = matches!(status_on(alloc, &document[..length]), Some(0 | 5));
        assert_at(rt, length, is_ended);
    }
}

#[test]
fn each_front_of_even_length_is_played_or_refused(rt: HostRuntime) {
    assert_fronts(&rt, rt.alloc(), 0);
}

#[test]
fn each_front_of_odd_length_is_played_or_refused(rt: HostRuntime) {
    assert_fronts(&rt, rt.alloc(), 1);
}

// A stream of the system that never ends, which gives so many bytes at most in one call, and counts them.
#[derive(Drop)]
struct Endless {
    most: usize,
    given: usize,
}

impl Read for Endless {
    fn read(&mut self, buf: &mut [u8]) -> io::Result<usize> {
        let count = self.most.min(buf.len());
        self.given = self.given.saturating_add(count);
        Ok(count)
    }
}

// How many bytes it gives at most in one call, and how many it has given when no more are wanted.
static ENDLESS: [(usize, usize); 3] = [
    (1, LONGEST_DOCUMENT as usize + 1),
    (4096, LONGEST_DOCUMENT as usize + 4096),
    (usize::MAX, LONGEST_DOCUMENT as usize + 4096),
];

// Whether `step` on such a stream is told to be too long, and no more bytes were taken. `false` where memory runs out, too.
fn is_cut_off(alloc: Global, most: usize, given: usize) -> bool {
    let Ok(word) = Value::new(alloc, b"step") else {
        return false;
    };
    let Ok(mut err) = MemorySink::new(alloc, 100, 10, &[]) else {
        return false;
    };
    let mut stream = Endless { most, given: 0 };
    let mut src = RealSource::new(&mut stream);
    let status = antipode_plain(alloc, &[word], &mut src, &mut SureSink::new(), &mut err).status;
    status == 5 && err.bytes() == b"too long\n".as_slice() && stream.given == given
}

#[test]
fn an_endless_document_is_cut_off(rt: HostRuntime) {
    for (place, (most, given)) in ENDLESS.iter().enumerate() {
        assert_at(&rt, place, is_cut_off(rt.alloc(), *most, *given));
    }
}
