ghost use Rattle.std.specs.Prelude.{◌≡◌, ◌++◌, [], ◌∷◌, cond, length, IfOk, OnOk};
ghost use Rattle.anti_doctor.specs.declared.write_index.StoreKey.{StoreKey};
ghost use Rattle.anti_doctor.specs.Missed.{first_of};
ghost use Rattle.anti_doctor.specs.inner.Indexes.{IsIndexOf, places_under, same_key, writes_to};
ghost use Rattle.law_causal.specs.Words.{wrote};

use anti_ids::{Name, NoMemory, WriteId};
use anti_kind::{Call, Entry, Reply};
use anti_trace::Trace;
use std::alloc::Global;
use std::collections::BTreeMap;

/// A key of a store.
#[derive(Clone, Copy, PartialEq, Eq, PartialOrd, Ord)]
pub struct StoreKey {
    pub store: u32,
    pub key: Name,
}

/// The places of the writes to each key, which ascend.
pub type WriteIndex = BTreeMap<StoreKey, Vec<u32>>;

/// The id of the write that an entry is; `None` where it is none.
pub fn id_written(entry: &Entry) -> Option<WriteId>
    ensures { result ≡ first_of (wrote entry.now) }
{
    match (&entry.call, &entry.reply) {
        (Call::Write { .. }, Reply::Written { key, version, .. }) if *version > 0 => Some(
            WriteId {
                store: entry.object,
                key: *key.get(),
                version: *version,
            },
        ),
        _ => None,
    }
}

// Notes the place of the first write to a key.
fn note_first(
    alloc: Global,
    index: &mut WriteIndex,
    key: StoreKey,
    place: u32,
) -> Result<(), NoMemory>
    ensures { (q : StoreKey) → OnOk result (places_under index.new q ≡ cond (same_key key q) (place ∷ []) (places_under index.old q)) }
{
    let mut places = Vec::new(alloc);
    places.push(place)?;
    match index.insert(key, places) {
        Ok(_) => Ok(()),
        Err(_) => Err(NoMemory),
    }
}

// Notes the place of a write to a key, behind those of the writes before it.
fn note(alloc: Global, index: &mut WriteIndex, key: StoreKey, place: u32) -> Result<(), NoMemory>
    ensures { (q : StoreKey) → OnOk result (places_under index.new q
        ≡ places_under index.old q ++ cond (same_key key q) (place ∷ []) []) }
{
    match index.get_mut(&key) {
        Some(places) => match places.push(place) {
            Ok(()) => Ok(()),
            Err(_) => Err(NoMemory),
        },
        None => note_first(alloc, index, key, place),
    }
}

// Notes the place of an entry under its key, where it is a write.
fn note_entry(
    alloc: Global,
    index: &mut WriteIndex,
    place: u32,
    entry: &Entry,
) -> Result<(), NoMemory>
    ensures { (q : StoreKey) → OnOk result (places_under index.new q
        ≡ places_under index.old q ++ cond (writes_to q entry.now) (place ∷ []) []) }
{
    match id_written(entry) {
        Some(id) => {
            let key = StoreKey {
                store: id.store,
                key: id.key,
            };
            note(alloc, index, key, place)
        }
        None => Ok(()),
    }
}

/// The places of the writes of a trace, by their keys. The only error is want of memory.
pub fn index_of(alloc: Global, trace: &Trace) -> Result<WriteIndex, NoMemory>
    ensures { IfOk result (IsIndexOf trace.now (length trace.now)) }
{
    let mut index = BTreeMap::new(alloc);
    for place in 0..trace.len() {
        note_entry(alloc, &mut index, place, trace.at(place))?;
    }
    Ok(index)
}
