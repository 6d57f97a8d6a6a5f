// Names, values, ids, lineages, messages and subscriptions, as the tests make them.
ghost use Rattle.std.specs.Prelude.{◌≡◌, true, IfOk, IfSome};
ghost use Rattle.anti_ids.specs.Names.{is_plain};

use anti_baggage::Baggage;
use anti_ids::{Bytes, Lineage, Name, Value, WriteId};
use anti_kind::{Handle, Message, MessageKind, Sub};
use std::alloc::Global;
use std::process::Abort;

/// The name that a text is.
pub fn name(text: &[u8]) -> Result<Name, &'static str> {
    match Name::new(text) {
        Ok(name) => Ok(name),
        Err(_) => Err("no name"),
    }
}

/// The value that a text is.
pub fn value(alloc: Global, text: &[u8]) -> Result<Value, &'static str> {
    match Value::new(alloc, text) {
        Ok(value) => Ok(value),
        Err(_) => Err("no value"),
    }
}

/// The id of a version of a key of a store.
pub fn id(store: u32, key: &[u8], version: u64) -> Result<WriteId, &'static str>
    ensures { IfOk result (λ id. id.version ≡ version) }
{
    match Name::new(key) {
        Ok(key) => Ok(WriteId {
            store,
            key,
            version,
        }),
        Err(_) => Err("no name"),
    }
}

// Adds a version of a key of a store, and answers whether it may be added: it counts from 1.
fn add(lineage: &mut Lineage, store: u32, key: &[u8], version: u64) -> bool {
    if version == 0 {
        return false;
    }
    match id(store, key, version) {
        Ok(id) => lineage.append(id).is_ok(),
        Err(_) => false,
    }
}

/// The first versions of a key of a store.
pub fn versions(
    alloc: Global,
    store: u32,
    key: &[u8],
    count: u64,
) -> Result<Lineage, &'static str> {
    let mut lineage = Lineage::root(alloc);
    for version in 1..=count {
        if !add(&mut lineage, store, key, version) {
            return Err("no lineage");
        }
    }
    Ok(lineage)
}

/// A key of a store and its version.
pub type Version<'a> = (&'a [u8], u64);

// Adds these keys with their versions, and answers whether each may be added.
fn add_all(lineage: &mut Lineage, store: u32, ids: &[Version]) -> bool {
    for (key, version) in ids {
        if !add(lineage, store, key, *version) {
            return false;
        }
    }
    true
}

/// These keys with their versions, each from 1 on, of each of these stores.
pub fn lineage(alloc: Global, stores: &[u32], ids: &[Version]) -> Result<Lineage, &'static str> {
    let mut lineage = Lineage::root(alloc);
    for store in stores {
        if !add_all(&mut lineage, *store, ids) {
            return Err("no lineage");
        }
    }
    Ok(lineage)
}

/// A message to the handler `work`, whose value is a letter. `None` where memory runs out.
pub fn message(alloc: Global, kind: MessageKind, to: u32, letter: u8) -> Option<Handle<Message>>
    ensures { IfSome result (λ m. m.kind ≡ kind) }
{
    let Ok(handler) = Name::new(b"work") else {
        return None;
    };
    let Ok(value) = Value::new(alloc, &[letter]) else {
        return None;
    };
    let message = Message {
        kind,
        to,
        depth: 0,
        handler,
        value,
        baggage: Baggage::from_text(Bytes::new(alloc)),
    };
    Handle::new(alloc, message).ok()
}

/// A subscription to a plain channel, in region 0.
pub fn sub(channel: &[u8]) -> Result<Sub, &'static str>
    ensures region { IfOk result (λ sub. sub.region ≡ 0) }
    ensures plain { IfOk result (λ sub. is_plain sub.channel ≡ true) }
{
    let Ok(channel) = Name::new(channel) else {
        return Err("no name");
    };
    if !channel.plain() {
        return Err("no plain name");
    }
    Ok(Sub { channel, region: 0 })
}

// An assertion in a test is proved with the test: these are proved once.

/// Asserts what is to hold.
pub fn assert_so(rt: &impl Abort, holds: bool) {
    assert!(rt; holds);
}

/// Asserts what is to hold of a text.
pub fn assert_of(rt: &impl Abort, text: &[u8], holds: bool) {
    assert!(rt; holds, "at {text:?}");
}

/// Asserts what is to hold of the row of a table at this place, counted from 0.
pub fn assert_at(rt: &impl Abort, place: usize, holds: bool) {
    assert!(rt; holds, "at row {place}");
}

/// Asserts that none of the steps is wrong.
pub fn assert_right(rt: &impl Abort, wrong: Option<usize>) {
    assert!(rt; wrong.is_none(), "step {wrong:?}");
}
