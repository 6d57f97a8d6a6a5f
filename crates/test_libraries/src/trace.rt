ghost use Rattle.std.specs.Prelude.{◌≡◌, ◌<◌, All, IfOk, length};
ghost use Rattle.anti_trace.specs.Histories.{IsHistory};

use crate::made::{assert_so, message};
use crate::steps::write;
use anti_ids::{Copies, Lineage, List, Name, NoMemory, Value};
use anti_kind::{Actor, Call, Entry, History, MessageKind, Reply, Row};
use anti_trace::{Histories, merge};
use std::alloc::Global;

// An entry on an object.
fn entry(object: u32, place: u32, stamp: u64) -> Entry
    ensures object { result.object ≡ object }
    ensures stamp { result.stamp ≡ stamp }
{
    Entry {
        stamp,
        object,
        place,
        seat: 0,
        actor: Actor::Carrier(1),
        span: 0,
        call: Call::Ship {
            region: 0,
            version: 1,
            part: 1,
        },
        reply: Reply::Moved,
    }
}

// The history of an object with two entries.
fn history(alloc: Global, object: u32, first: u64, second: u64) -> Result<History, NoMemory>
    requires { first < second }
    ensures is { IfOk result (λ h. IsHistory h.items) }
    ensures own { IfOk result (λ h. All (λ e. e.object ≡ object) h.items) }
    ensures two { IfOk result (λ h. length h.items ≡ 2) }
{
    let mut history = List::new(alloc);
    history.reserve(2)?;
    history.put(entry(object, 1, first));
    history.put(entry(object, 2, second));
    Ok(history)
}

// The objects of the entries of three histories that are merged. Those of one stamp stand by their objects, wherever their histories
// stand.
static OBJECTS: [u32; 6] = [0, 3, 7, 0, 3, 7];

// Whether entries are on these objects.
fn are_on(entries: &[Entry], objects: &[u32]) -> bool {
    if entries.len() != objects.len() {
        return false;
    }
    for place in 0..entries.len() {
        if entries[place].object != objects[place] {
            return false;
        }
    }
    true
}

// Whether three histories are merged so.
fn are_merged(alloc: Global) -> bool {
    let mut histories: Histories = List::new(alloc);
    let Ok(()) = histories.reserve(3) else {
        return false;
    };
    let Ok(first) = history(alloc, 7, 2, 5) else {
        return false;
    };
    histories.put(first);
    let Ok(second) = history(alloc, 0, 2, 3) else {
        return false;
    };
    histories.put(second);
    let Ok(third) = history(alloc, 3, 2, 3) else {
        return false;
    };
    histories.put(third);
    match merge(alloc, histories) {
        Ok(trace) => are_on(trace.as_slice(), &OBJECTS),
        Err(_) => false,
    }
}

#[test]
fn three_histories_are_merged(rt: HostRuntime) {
    assert_so(&rt, are_merged(rt.alloc()));
}

// Whether an entry with a copy of this reply has a copy with its stamp.
fn is_copied(alloc: Global, stamp: u64, reply: &Reply) -> bool {
    let Ok(reply) = reply.copy(alloc) else {
        return false;
    };
    let Some(call) = write(alloc, b"k", b"", &[]) else {
        return false;
    };
    let entry = Entry {
        stamp,
        object: 0,
        place: 1,
        seat: 0,
        actor: Actor::Newborn,
        span: 1,
        call,
        reply,
    };
    match entry.copy(alloc) {
        Ok(again) => again.stamp == stamp,
        Err(_) => false,
    }
}

// Whether an entry with a message is copied.
fn is_message_copied(alloc: Global) -> bool {
    match message(alloc, MessageKind::Request, 0, b'q') {
        Some(message) => is_copied(alloc, 7, &Reply::Got { number: 1, message }),
        None => false,
    }
}

// Whether an entry with a row is copied.
fn is_row_copied(alloc: Global) -> bool {
    let Ok(key) = Name::new(b"k") else {
        return false;
    };
    let mut rows = List::new(alloc);
    let Ok(()) = rows.reserve(1) else {
        return false;
    };
    rows.put(Row {
        key,
        version: 1,
        value: Value::empty(alloc),
        lineage: Lineage::root(alloc),
    });
    is_copied(alloc, 8, &Reply::Shown(rows))
}

#[test]
fn entries_are_copied(rt: HostRuntime) {
    assert_so(
        &rt,
        is_message_copied(rt.alloc()) && is_row_copied(rt.alloc()),
    );
}
