use crate::made::{assert_at, assert_so};
use anti_edge::{
    MemorySink, MemorySource, ReadRefused, RealSink, RealSource, Source, SureSource, read_all,
    write_all,
};
use std::alloc::Global;
use std::io;
use std::io::{ErrorKind, Read, Write};

// Whether these bytes are read of a source where so many are allowed, or they are refused so.
fn is_read<S: Source>(
    alloc: Global,
    source: &mut S,
    most: u32,
    wanted: Result<&[u8], ReadRefused>,
) -> bool {
    match read_all(alloc, source, most) {
        Ok(bytes) => wanted == Ok(bytes.bytes()),
        Err(refused) => wanted == Err(refused),
    }
}

#[test]
fn a_real_source_passes_bytes_on(rt: HostRuntime) {
    let mut source = RealSource::new(b"hello".as_slice());
    assert_so(&rt, is_read(rt.alloc(), &mut source, 5, Ok(b"hello")));
}

#[test]
fn a_real_sink_passes_bytes_on(rt: HostRuntime) {
    let mut kept = Vec::new(rt.alloc());
    let mut sink = RealSink::new(&mut kept);
    let is_written = write_all(&mut sink, b"hello").is_ok();
    assert_so(&rt, is_written && kept.as_slice() == b"hello".as_slice());
}

// A stream of the system that moves one byte in a call, and behind so many calls fails some. It counts its calls.
#[derive(Drop)]
struct Failing {
    before: u8,
    times: u8,
    kind: ErrorKind,
    calls: u32,
}

impl Failing {
    // No call was made yet.
    fn new(before: u8, times: u8, kind: ErrorKind) -> Failing {
        Failing {
            before,
            times,
            kind,
            calls: 0,
        }
    }

    // How many calls there are up to the last that fails.
    fn last(&self) -> u32 {
        u32::from(self.before) + u32::from(self.times)
    }

    // Counts one more call, and fails it where it is one of those.
    fn begin(&mut self) -> io::Result<()> {
        let count = self.calls;
        self.calls = count.saturating_add(1);
        if count >= u32::from(self.before) && count < self.last() {
            return Err(self.kind.into());
        }
        Ok(())
    }

    // Whether the last call that fails was made, and none behind it.
    fn ended(&self) -> bool {
        self.calls == self.last()
    }
}

impl Read for Failing {
    fn read(&mut self, buf: &mut [u8]) -> io::Result<usize> {
        self.begin()?;
        if buf.is_empty() {
            return Ok(0);
        }
        buf[0] = b'a';
        Ok(1)
    }
}

impl Write for Failing {
    fn write(&mut self, piece: &[u8]) -> io::Result<usize> {
        self.begin()?;
        Ok(piece.len().min(1))
    }

    fn flush(&mut self) -> io::Result<()> {
        Ok(())
    }
}

// How many calls go well before some fail, how many fail, and how.
type Failure = (u8, u8, ErrorKind);

// An interrupted call is made 64 times.
static FAILURES: [Failure; 8] = [
    (0, 1, ErrorKind::Other),
    (0, 1, ErrorKind::UnexpectedEof),
    (0, 1, ErrorKind::WriteZero),
    (1, 1, ErrorKind::BrokenPipe),
    (4, 1, ErrorKind::UnexpectedEof),
    (4, 1, ErrorKind::StorageFull),
    (0, 64, ErrorKind::Interrupted),
    (4, 64, ErrorKind::Interrupted),
];

// Whether of a stream with such a failure all bytes are refused so, after so many faults; the last call that fails is then the last there
// is where that is a fault.
fn is_read_to(
    alloc: Global,
    (before, times, kind): Failure,
    refused: ReadRefused,
    faults: u64,
) -> bool {
    let mut stream = Failing::new(before, times, kind);
    let mut source = RealSource::new(&mut stream);
    is_read(alloc, &mut source, 5, Err(refused))
        && source.faults() == faults
        && stream.ended() == (faults == 1)
}

// Whether what is written to it fails after so many faults, of which there is one or none; and the same of the last call.
fn is_written_to((before, times, kind): Failure, faults: u64) -> bool {
    let mut stream = Failing::new(before, times, kind);
    let mut sink = RealSink::new(&mut stream);
    let fails = faults == 1;
    write_all(&mut sink, b"hello").is_err() == fails
        && sink.faults() == faults
        && stream.ended() == fails
}

#[test]
fn an_error_of_the_system_is_a_fault(rt: HostRuntime) {
    for (number, failure) in FAILURES.iter().enumerate() {
        let is_told = is_read_to(rt.alloc(), *failure, ReadRefused::Fault, 1);
        assert_at(&rt, number, is_told && is_written_to(*failure, 1));
    }
}

// Calls that are interrupted, but not too often. A stream without an end is then read on to more than five bytes.
static INTERRUPTIONS: [Failure; 4] = [
    (0, 1, ErrorKind::Interrupted),
    (0, 63, ErrorKind::Interrupted),
    (1, 1, ErrorKind::Interrupted),
    (4, 63, ErrorKind::Interrupted),
];

#[test]
fn an_interrupted_call_is_made_again(rt: HostRuntime) {
    for (number, failure) in INTERRUPTIONS.iter().enumerate() {
        let is_read = is_read_to(rt.alloc(), *failure, ReadRefused::TooLong, 0);
        assert_at(&rt, number, is_read && is_written_to(*failure, 0));
    }
}

// How many bytes a source in memory that has `hello` gives at most in one call, which of its calls fail, what comes of reading all where so
// many bytes are allowed, and what is read behind that.
type Reading = (
    u32,
    &'static [u32],
    u32,
    Result<&'static [u8], ReadRefused>,
    &'static [u8],
);

// The end takes a call of its own.
static READINGS: [Reading; 16] = [
    (1, &[], 5, Ok(b"hello"), b""),
    (2, &[], 5, Ok(b"hello"), b""),
    (9, &[], 9, Ok(b"hello"), b""),
    (2, &[9], 5, Ok(b"hello"), b""),
    (1, &[1], 5, Err(ReadRefused::Fault), b"hello"),
    (1, &[2], 5, Err(ReadRefused::Fault), b"ello"),
    (1, &[5], 5, Err(ReadRefused::Fault), b"o"),
    (1, &[6], 5, Err(ReadRefused::Fault), b""),
    (2, &[2], 5, Err(ReadRefused::Fault), b"llo"),
    (2, &[8, 3], 5, Err(ReadRefused::Fault), b"o"),
    (9, &[2], 5, Err(ReadRefused::Fault), b""),
    // what comes first decides: a fault, or the byte that is too many
    (1, &[1], 0, Err(ReadRefused::Fault), b"hello"),
    (1, &[5], 4, Err(ReadRefused::Fault), b"o"),
    (1, &[7], 4, Err(ReadRefused::TooLong), b""),
    (2, &[5], 3, Err(ReadRefused::TooLong), b"o"),
    (9, &[3], 4, Err(ReadRefused::TooLong), b""),
];

// Whether reading comes to this of a source in memory, and reading on to what is left.
fn is_read_so(alloc: Global, (most, fail, limit, first, left): &Reading) -> bool {
    match MemorySource::new(alloc, b"hello", (*most).max(1), fail) {
        Ok(mut source) => {
            is_read(alloc, &mut source, *limit, *first) && is_read(alloc, &mut source, 5, Ok(*left))
        }
        Err(_) => false,
    }
}

#[test]
fn a_source_in_memory_fails_where_it_is_told(rt: HostRuntime) {
    for (number, reading) in READINGS.iter().enumerate() {
        assert_at(&rt, number, is_read_so(rt.alloc(), reading));
    }
}

// How much room a sink in memory has, how many bytes it takes at most in one call, which of its calls fail, whether all of `hello` is taken
// by it, what it then has, and what once `!` is written behind that.
type Writing = (u32, u32, &'static [u32], bool, &'static [u8], &'static [u8]);

static WRITINGS: [Writing; 12] = [
    (6, 1, &[], true, b"hello", b"hello!"),
    (6, 9, &[], true, b"hello", b"hello!"),
    (6, 2, &[9], true, b"hello", b"hello!"),
    (6, 1, &[1], false, b"", b"!"),
    (6, 1, &[2], false, b"h", b"h!"),
    (6, 1, &[5], false, b"hell", b"hell!"),
    (6, 1, &[6], true, b"hello", b"hello"),
    (6, 2, &[2], false, b"he", b"he!"),
    (6, 2, &[8, 3], false, b"hell", b"hell!"),
    // no room
    (0, 9, &[], false, b"", b""),
    (4, 9, &[], false, b"hell", b"hell"),
    (5, 2, &[], true, b"hello", b"hello"),
];

// Whether writing comes to this at a sink in memory.
fn is_written_so(alloc: Global, (room, most, fail, all, taken, then): &Writing) -> bool {
    let Ok(mut sink) = MemorySink::new(alloc, *room, (*most).max(1), fail) else {
        return false;
    };
    let is_first = write_all(&mut sink, b"hello").is_ok() == *all && sink.bytes() == *taken;
    let _ = write_all(&mut sink, b"!");
    is_first && sink.bytes() == *then
}

#[test]
fn a_sink_in_memory_fails_where_it_is_told(rt: HostRuntime) {
    for (number, writing) in WRITINGS.iter().enumerate() {
        assert_at(&rt, number, is_written_so(rt.alloc(), writing));
    }
}

// Whether more bytes than are allowed are refused.
fn is_too_long(alloc: Global) -> bool {
    match SureSource::new(alloc, b"hello") {
        Ok(mut source) => is_read(alloc, &mut source, 4, Err(ReadRefused::TooLong)),
        Err(_) => false,
    }
}

#[test]
fn more_than_is_allowed_is_not_read(rt: HostRuntime) {
    assert_so(&rt, is_too_long(rt.alloc()));
}
