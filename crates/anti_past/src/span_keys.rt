ghost use Rattle.std.specs.Prelude.{◌≡◌};
ghost use Rattle.anti_past.specs.inner.Keys.{birth_in, key_of, read_key};

use crate::calls::reads;
use anti_kind::{Actor, Birth, Entry};

/// A span of a process: the object and the place of the entry that started the process, and the number of the span.
#[derive(Clone, Copy, PartialEq, Eq, PartialOrd, Ord)]
pub struct SpanKey {
    pub object: u32,
    pub place: u32,
    pub span: u32,
}

/// The span of an entry, where it is one of a process.
pub fn key_of(entry: &Entry) -> Option<SpanKey>
    ensures { result ≡ key_of entry.now }
{
    match entry.actor {
        Actor::Process(birth) => Some(SpanKey {
            object: birth.object,
            place: birth.place,
            span: entry.span,
        }),
        _ => None,
    }
}

/// The span that an entry reads in, where it is a read of a process.
pub fn read_key(entry: &Entry) -> Option<SpanKey>
    ensures { result ≡ read_key entry.now }
{
    if reads(&entry.call) {
        key_of(entry)
    } else {
        None
    }
}

impl SpanKey {
    /// The entry that started the process.
    pub fn birth(self) -> Birth
        ensures { result ≡ birth_in self }
    {
        Birth {
            object: self.object,
            place: self.place,
        }
    }
}
