ghost use Rattle.std.specs.Prelude.{◌≡◌};
ghost use Rattle.law_serial.specs.Order.{is_some_id};
ghost use Rattle.law_causal.specs.Words.{wrote};
ghost use Rattle.anti_doctor.specs.inner.Passages.{posted_of, span_of, taken_of};

use anti_kind::{Actor, Call, Entry, Reply};

/// By what an entry hands on what is causally before it: by the span of its process, or by a letter on an inbox, which is a call or a send,
/// or the reply to a call. The kinds are 0, 1 and 2. A span is known by the object and the place of the birth of its process, and by its
/// number; a letter by the inbox, and the number of the call or send.
#[derive(Clone, Copy, PartialEq, Eq, PartialOrd, Ord)]
pub struct Passage {
    pub kind: u32,
    pub object: u32,
    pub number: u32,
    pub span: u32,
}

// A call or a send.
fn asked_on(inbox: u32, number: u32) -> Passage
    ensures { result ≡ record { kind = 1; object = inbox; number = number; span = 0 } }
{
    Passage {
        kind: 1,
        object: inbox,
        number,
        span: 0,
    }
}

// The reply to a call.
fn answered_on(inbox: u32, number: u32) -> Passage
    ensures { result ≡ record { kind = 2; object = inbox; number = number; span = 0 } }
{
    Passage {
        kind: 2,
        object: inbox,
        number,
        span: 0,
    }
}

/// The span of an entry; `None` of one of a carrier.
pub fn span_of(entry: &Entry) -> Option<Passage>
    ensures { result ≡ span_of entry.now }
{
    match entry.actor {
        Actor::Process(birth) => Some(Passage {
            kind: 0,
            object: birth.object,
            number: birth.place,
            span: entry.span,
        }),
        _ => None,
    }
}

/// The letter that an entry posts, if it posts one.
pub fn posted_of(entry: &Entry) -> Option<Passage>
    ensures { result ≡ posted_of entry.now }
{
    match (&entry.call, &entry.reply) {
        (Call::Post { .. }, Reply::Posted(number)) => Some(asked_on(entry.object, *number)),
        (Call::Post { message }, Reply::Done) => Some(answered_on(entry.object, message.get().to)),
        _ => None,
    }
}

/// The letter that an entry takes, if it takes one.
pub fn taken_of(entry: &Entry) -> Option<Passage>
    ensures { result ≡ taken_of entry.now }
{
    match (&entry.call, &entry.reply) {
        (Call::Take { .. }, Reply::Got { number, .. }) => Some(asked_on(entry.object, *number)),
        (Call::TakeReply { number }, _) => Some(answered_on(entry.object, *number)),
        _ => None,
    }
}

/// Whether an entry is a write.
pub fn is_write(entry: &Entry) -> bool
    ensures { result ≡ is_some_id (wrote entry.now) }
{
    match (&entry.call, &entry.reply) {
        (Call::Write { .. }, Reply::Written { version, .. }) => *version > 0,
        _ => false,
    }
}
