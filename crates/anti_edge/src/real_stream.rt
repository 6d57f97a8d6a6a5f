ghost use Rattle.std.specs.Prelude.{◌≡◌, ◌≤◌, None};
ghost use Rattle.anti_ids.specs.Counts.{Rose};

use crate::failed::Failed;
use crate::sink::Sink;
use crate::source::Source;
use std::io::{ErrorKind, Read, Write};
use std::marker::Model;

// How often a read or a write is made that is interrupted each time.
const MOST_TRIES: u32 = 64;

/// A stream of the system as a source or a sink. It counts the stream's errors, and each write that took nothing of a piece. A read or a
/// write that was interrupted is made again, some times at most. It tells nothing of the bytes, and is trusted to pass them on. Contracts
/// see the count.
#[derive(Drop)]
pub struct RealStream<T> {
    inner: T,
    faults: u64,
}

/// A source over a stream of the system.
pub type RealSource<R> = RealStream<R>;

/// A sink over a stream of the system.
pub type RealSink<W> = RealStream<W>;

impl<T> Model for RealStream<T> {
    ghost use Rattle.std.specs.Prelude.{ℕ};

    ghost Value = { ℕ };

    ghost view = { λ s. s.faults };
}

impl<T> RealStream<T> {
    /// This stream, of which no read and no write failed yet.
    pub fn new(inner: T) -> RealStream<T>
        ensures { result ≡ 0 }
    {
        RealStream { inner, faults: 0 }
    }

    /// How many reads and writes failed.
    pub fn faults(&self) -> u64
        ensures { result ≡ self.now }
    {
        self.faults
    }

    // Counts one more failure.
    fn fault(&mut self) -> Failed
        ensures rose { Rose self.old self.new }
        ensures count { self.old ≤ self.new }
    {
        self.faults = self.faults.saturating_add(1);
        Failed
    }
}

impl<R: Read> Source for RealStream<R> {
    ghost left = { λ _. None };

    ghost faults = { λ s. s };

    fn read(&mut self, buf: &mut [u8]) -> Result<usize, Failed> {
        for _ in 0..MOST_TRIES {
            match self.inner.read(buf) {
                Ok(count) => return Ok(count),
                Err(error) if error.kind() == ErrorKind::Interrupted => {}
                Err(_) => return Err(self.fault()),
            }
        }
        Err(self.fault())
    }
}

impl<W: Write> Sink for RealStream<W> {
    ghost written = { λ _. None };

    ghost faults = { λ s. s };

    fn write(&mut self, piece: &[u8]) -> Result<usize, Failed> {
        for _ in 0..MOST_TRIES {
            match self.inner.write(piece) {
                Ok(count) if count > 0 || piece.is_empty() => return Ok(count),
                Err(error) if error.kind() == ErrorKind::Interrupted => {}
                _ => return Err(self.fault()),
            }
        }
        Err(self.fault())
    }
}
