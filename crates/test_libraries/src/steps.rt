// What an object is asked, one call after another, and what it answers.

ghost use Rattle.std.specs.Prelude.{[], IfOk};
ghost use Rattle.anti_kind.specs.Machines.{StandsFor};

use crate::made::{Version, lineage, message};
use anti_ids::{Lineage, Name, NoMemory, Value};
use anti_kind::{
    Actor, Answer, Asking, Brought, Call, Handle, Machine, MessageKind, Recorded, Refusal, Reply,
    Row,
};
use std::alloc::Global;
use std::process::Abort;

/// What is asked; of a store, in some region.
#[derive(Clone, Copy)]
pub enum Asked<'a> {
    /// To write a value to a key, with these versions of the store 0 as its lineage.
    Write(&'a [u8], &'a [u8], &'a [Version<'a>]),
    /// To write the value `v` to the key of this number, with the empty lineage.
    WriteNth(u64),
    /// To read a key.
    Read(&'a [u8]),
    /// To read the keys that begin with a prefix.
    Scan(&'a [u8]),
    /// To read a cell.
    Poll(&'a [u8]),
    /// To look for these versions of the store 0.
    Look(&'a [Version<'a>]),
    /// To bring a part of a version.
    Ship(u64, u32),
    /// To bring it once more.
    Again(u64, u32),
    /// To post a message, with the call that it answers and the letter that is its value.
    Post(MessageKind, u32, u8),
    /// To take the nth free delivery.
    Take(u32),
    /// To deliver a message once more.
    Repost(u32),
    /// To take the reply to a call.
    TakeReply(u32),
    /// To pull what is next for a subscription.
    Pull(u32),
    /// To pull a version once more for a subscription.
    Repull(u32, u64),
    /// To say that a version is done.
    Ack(u64),
    /// To give a version back.
    Nack(u64),
}

/// What is told.
#[derive(Clone, Copy)]
pub enum Told<'a> {
    /// Nothing, since the call is not ready.
    NotNow,
    /// Nothing, since the call is not made: it needs so many units.
    Needs(u32),
    /// What it would bring to those who wait at the object. It is not made.
    Brings(Brought),
    /// The key and the version that was written.
    Wrote(&'a [u8], u64),
    /// The same, with the versions that it tells to be kept beside it: none, where that is what was handed in.
    Kept(&'a [u8], u64, &'a [Version<'a>]),
    /// The rows: of each its key, its version and its value.
    Rows(&'a [(&'a [u8], u64, &'a [u8])]),
    /// How many ids are missing.
    Missing(u32),
    /// That a part was brought.
    Moved,
    /// The number of the message that was posted.
    Posted(u32),
    /// The number and the letter of the message that was taken.
    Got(u32, u8),
    /// The key and the version of the row that was pulled.
    Pulled(&'a [u8], u64),
    /// That it was done.
    Done,
}

/// What an object is to do.
#[derive(Clone, Copy)]
pub enum Step<'a> {
    /// What is asked, what is told, and the units that are then held and owed.
    Call(Asked<'a>, Told<'a>, u32, u32),
    /// To write the value `v` to a key so many times, each time with the empty lineage.
    Writes(&'a [u8], u32),
    /// The versions up to this one are whole in region 0, and this version and part is to be shipped there next.
    Whole(u64, Option<(u64, u32)>),
}

/// A write. `None` where memory runs out.
pub fn write(alloc: Global, key: &[u8], text: &[u8], ids: &[Version]) -> Option<Call> {
    let Ok(name) = Name::new(key) else {
        return None;
    };
    let Ok(ids) = lineage(alloc, &[0], ids) else {
        return None;
    };
    let Ok(lineage) = Handle::new(alloc, ids) else {
        return None;
    };
    let Ok(key) = Handle::new(alloc, name) else {
        return None;
    };
    let Ok(value) = Value::new(alloc, text) else {
        return None;
    };
    Some(Call::Write {
        key,
        value,
        lineage,
    })
}

// A write of the value `v` to the key of a number, with the empty lineage. `None` where memory runs out.
fn write_nth(alloc: Global, number: u64) -> Option<Call> {
    let Ok(key) = format!(in alloc; "k{number}") else {
        return None;
    };
    write(alloc, key.as_bytes(), b"v", &[])
}

// A look for some versions in a region. `None` where memory runs out.
fn look(alloc: Global, region: u32, ids: &[Version]) -> Option<Call> {
    let Ok(ids) = lineage(alloc, &[0], ids) else {
        return None;
    };
    match Handle::new(alloc, ids) {
        Ok(ids) => Some(Call::Look {
            region,
            ids,
            dry: false,
        }),
        Err(_) => None,
    }
}

/// The call that is asked, in this region. `None` where memory runs out.
pub fn call_of(alloc: Global, region: u32, asked: Asked) -> Option<Call> {
    match asked {
        Asked::Write(key, text, ids) => write(alloc, key, text, ids),
        Asked::WriteNth(number) => write_nth(alloc, number),
        Asked::Read(key) => match Name::new(key) {
            Ok(key) => Some(Call::Read { region, key }),
            Err(_) => None,
        },
        Asked::Scan(prefix) => match Name::new(prefix) {
            Ok(prefix) => Some(Call::Scan { region, prefix }),
            Err(_) => None,
        },
        Asked::Poll(key) => match Name::new(key) {
            Ok(key) => Some(Call::Poll { region, key }),
            Err(_) => None,
        },
        Asked::Look(ids) => look(alloc, region, ids),
        Asked::Ship(version, part) => Some(Call::Ship {
            region,
            version,
            part,
        }),
        Asked::Again(version, part) => Some(Call::Again {
            region,
            version,
            part,
        }),
        Asked::Post(kind, to, letter) => match message(alloc, kind, to, letter) {
            Some(message) => Some(Call::Post { message }),
            None => None,
        },
        Asked::Take(nth) => Some(Call::Take { nth }),
        Asked::Repost(number) => Some(Call::Repost { number }),
        Asked::TakeReply(number) => Some(Call::TakeReply { number }),
        Asked::Pull(sub) => Some(Call::Pull { sub }),
        Asked::Repull(sub, version) => Some(Call::Repull { sub, version }),
        Asked::Ack(version) => Some(Call::Ack { version }),
        Asked::Nack(version) => Some(Call::Nack { version }),
    }
}

// Whether a row has this key, version and value.
fn is_row(row: &Row, wanted: &(&[u8], u64, &[u8])) -> bool {
    row.key.bytes() == wanted.0 && row.version == wanted.1 && row.value.bytes() == wanted.2
}

// Whether rows have these keys, versions and values.
fn are_rows(rows: &[Row], wanted: &[(&[u8], u64, &[u8])]) -> bool {
    if rows.len() != wanted.len() {
        return false;
    }
    for place in 0..rows.len() {
        if !is_row(&rows[place], &wanted[place]) {
            return false;
        }
    }
    true
}

// Whether a lineage has just these versions, which ascend, of the store 0.
fn are_versions(lineage: &Lineage, wanted: &[Version]) -> bool {
    if lineage.len() as usize != wanted.len() {
        return false;
    }
    let mut ids = lineage.iter();
    for (key, version) in wanted {
        match ids.next() {
            Some(id) if id.key.bytes() == *key && id.version == *version => {}
            _ => return false,
        }
    }
    true
}

// Whether a write tells that just these versions are kept beside it, or nothing, where these are none.
fn are_kept(over: &Option<Handle<Lineage>>, wanted: &[Version]) -> bool {
    match over {
        Some(kept) => !wanted.is_empty() && are_versions(kept.get(), wanted),
        None => wanted.is_empty(),
    }
}

// Whether a reply is what is to be told.
fn is_told(reply: &Reply, told: Told) -> bool {
    match (reply, told) {
        (Reply::Written { key, version, .. }, Told::Wrote(named, wanted)) => {
            key.get().bytes() == named && *version == wanted
        }
        (Reply::Written { key, version, over }, Told::Kept(named, wanted, ids)) => {
            key.get().bytes() == named && *version == wanted && are_kept(over, ids)
        }
        (Reply::Shown(rows), Told::Rows(wanted)) => are_rows(rows.as_slice(), wanted),
        (Reply::Missing { missing, .. }, Told::Missing(count)) => missing.get().len() == count,
        (Reply::Moved, Told::Moved) => true,
        (Reply::Posted(number), Told::Posted(wanted)) => *number == wanted,
        (Reply::Got { number, message }, Told::Got(wanted, letter)) => {
            *number == wanted && message.get().value.bytes() == [letter].as_slice()
        }
        (Reply::Pulled(row), Told::Pulled(named, wanted)) => {
            row.get().key.bytes() == named && row.get().version == wanted
        }
        (Reply::Done, Told::Done) => true,
        _ => false,
    }
}

/// Whether an answer is what is to be told.
pub fn is_answered(answer: &Answer, told: Told) -> bool {
    match answer {
        Answer::Made { reply, .. } => is_told(reply, told),
        Answer::Refused(Refusal::NotYet) => matches!(told, Told::NotNow),
        _ => false,
    }
}

// What an object answers to a call of the carrier 0.
fn answer<M: Machine>(object: &mut Recorded<M>, call: Call) -> Answer {
    let asking = Asking {
        object: 0,
        actor: Actor::Carrier(0),
        span: 0,
        clock: 0,
        call,
    };
    object.ask(0, asking)
}

// Whether an object answers so to a call of the carrier 0.
fn answers<M: Machine>(object: &mut Recorded<M>, call: Call, told: Told) -> bool {
    match told {
        Told::Needs(units) => object.machine().need(&call) == units,
        Told::Brings(wanted) => call.brought() == wanted,
        _ => is_answered(&answer(object, call), told),
    }
}

// Whether so many writes of the value `v` to a key are made, each with the empty lineage.
fn are_written<M: Machine>(
    alloc: Global,
    object: &mut Recorded<M>,
    key: &[u8],
    times: u32,
) -> bool {
    for _ in 0..times {
        let Some(call) = write(alloc, key, b"v", &[]) else {
            return false;
        };
        if !matches!(answer(object, call), Answer::Made { .. }) {
            return false;
        }
    }
    true
}

// Whether a step goes as it says.
fn goes<M: Machine>(alloc: Global, object: &mut Recorded<M>, step: Step) -> bool {
    match step {
        Step::Call(asked, told, held, owed) => {
            let Some(call) = call_of(alloc, 0, asked) else {
                return false;
            };
            let is_told = answers(object, call, told);
            let machine = object.machine();
            is_told && machine.held() == held && machine.owed() == owed
        }
        Step::Writes(key, times) => are_written(alloc, object, key, times),
        Step::Whole(version, next) => {
            let machine = object.machine();
            machine.upto(0) == version && machine.next_ship(0) == next
        }
    }
}

// How many of these steps go as they say, one after another, on an object that is at its start, before the first that does not. None
// does without memory.
fn steps_gone<M: Machine + Drop>(alloc: Global, start: Result<M, NoMemory>, steps: &[Step]) -> usize
    requires { IfOk start (λ m. StandsFor (M.start m) (M.Stands m) []) }
{
    let Ok(start) = start else {
        return 0;
    };
    let Ok(mut object) = Recorded::new(alloc, start) else {
        return 0;
    };
    for place in 0..steps.len() {
        if !goes(alloc, &mut object, steps[place]) {
            return place;
        }
    }
    steps.len()
}

/// Asserts that each of these steps goes as it says, one after another, on an object that is at its start.
pub fn assert_steps<M: Machine + Drop>(
    rt: &impl Abort,
    alloc: Global,
    start: Result<M, NoMemory>,
    steps: &[Step],
)
    requires { IfOk start (λ m. StandsFor (M.start m) (M.Stands m) []) }
{
    let gone = steps_gone(alloc, start, steps);
    assert!(rt; gone == steps.len(), "at step {gone}");
}
