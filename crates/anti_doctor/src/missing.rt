ghost use Rattle.std.specs.Prelude.{ℕ, ◌≡◌, ◌<◌, ◌++◌, Bool, bytes_eq, length, All, IfOk, OnOk, true};
ghost use Rattle.std.specs.List.{find};
ghost use Rattle.std.specs.Option.{option_map_or, option_to_list};
ghost use Rattle.anti_app.specs.declared.app.App.{App};
ghost use Rattle.anti_kind.specs.Replies.{speaks_of};
ghost use Rattle.anti_trace.specs.Legal.{IsLegalTrace};
ghost use Rattle.law_causal.specs.Reads.{is_at};
ghost use Rattle.law_causal.specs.Words as words;
ghost use Rattle.law_serial.specs.Order.{writes_at};
ghost use Rattle.law_serial.specs.Serial.{version_shown};
ghost use Rattle.anti_order.specs.inner.NumberSets.{has};
ghost use Rattle.anti_order.specs.inner.Writes.{AreWritesOf, number_at};
ghost use Rattle.anti_doctor.specs.Missed.{AreMissedAt};
ghost use Rattle.anti_doctor.specs.inner.Indexes.{IsIndexOf};
ghost use Rattle.anti_doctor.specs.inner.Missing.{Ascend, is_missed, is_spoken, key_from, newest_of, version_at};

use crate::write_index::{StoreKey, WriteIndex, id_written};
use anti_ids::{Name, NoMemory};
use anti_kind::{Call, Entry, Reply, Row};
use anti_order::{NumberSet, Writes};
use anti_trace::Trace;
use std::alloc::Global;

// The least key of which a read may speak; `None` where the call is no read.
fn key_from(entry: &Entry) -> Option<StoreKey>
    ensures { result ≡ key_from entry.now.object entry.now.call }
{
    match &entry.call {
        Call::Read { key, .. } | Call::Poll { key, .. } => Some(StoreKey {
            store: entry.object,
            key: *key,
        }),
        Call::Scan { prefix, .. } => Some(StoreKey {
            store: entry.object,
            key: *prefix,
        }),
        _ => None,
    }
}

// Whether a call speaks of a key.
fn speaks_of(call: &Call, key: &Name) -> bool
    ensures { result ≡ speaks_of key.now call.now }
{
    match call {
        Call::Read { key: own, .. } => *own == *key,
        Call::Poll { key: own, .. } => *own == *key,
        Call::Scan { prefix, .. } => key.bytes().starts_with(prefix.bytes()),
        _ => false,
    }
}

// Whether a read speaks of a key of a store.
fn is_spoken(entry: &Entry, key: &StoreKey) -> bool
    ensures { result ≡ is_spoken entry.now key.now }
{
    key.store == entry.object && speaks_of(&entry.call, &key.key)
}

// The version of the row with a key; 0 where there is none.
fn version_among(rows: &[Row], key: &Name) -> u64
    ensures { result ≡ option_map_or (λ r. r.version) (find (λ r. bytes_eq r.key key.now) rows.now) 0 }
{
    for row in rows {
        if row.key == *key {
            return row.version;
        }
    }
    0
}

// The version that a read shows of a key; 0 where it shows none.
fn version_shown(reply: &Reply, key: &Name) -> u64
    ensures { result ≡ version_shown reply.now key.now }
{
    match reply {
        Reply::Shown(rows) => version_among(rows.as_slice(), key),
        _ => 0,
    }
}

// The version of the write at a place; 0 where none stands there.
fn version_at(trace: &Trace, place: u32) -> u64
    requires { place < length trace.now }
    ensures { result ≡ version_at trace.now place }
{
    match id_written(trace.at(place)) {
        Some(id) => id.version,
        None => 0,
    }
}

// Whether the number of the write at a place is in a set.
fn is_in(trace: &Trace, writes: &Writes, set: &NumberSet, place: u32) -> bool
    requires place { writes_at trace.now place ≡ true }
    requires writes { AreWritesOf trace.now writes.now }
    ensures { result ≡ has set.now (number_at trace.now place) }
{
    let Some(id) = id_written(trace.at(place)) else {
        return false;
    };
    match writes.number_of(&id) {
        Some(number) => set.contains(number),
        None => false,
    }
}

// The last of some writes whose number is in a set and that has a version above one that is shown. The versions ascend, so that no write is
// asked for that is below the one that is shown.
fn newest_missed(
    trace: &Trace,
    writes: &Writes,
    set: &NumberSet,
    shown: u64,
    places: &[u32],
) -> Option<u32>
    requires writes { AreWritesOf trace.now writes.now }
    requires places { All (λ p. p < length trace.now) places.now }
    requires ascending { Ascend trace.now places.now }
    ensures { result ≡ newest_of (is_missed trace.now set.now shown) places.now }
{
    let mut left = places.len();
    while left > 0 {
        left -= 1;
        let place = places[left];
        if version_at(trace, place) <= shown {
            return None;
        }
        if is_in(trace, writes, set, place) {
            return Some(place);
        }
    }
    None
}

// Adds a place at the end, where there is one.
fn add_found(places: &mut Vec<u32>, found: Option<u32>) -> Result<(), NoMemory>
    ensures { OnOk result (places.new.items ≡ places.old.items ++ option_to_list found) }
{
    match found {
        Some(place) => match places.push(place) {
            Ok(()) => Ok(()),
            Err(_) => Err(NoMemory),
        },
        None => Ok(()),
    }
}

/// The places of the writes that a read misses most, one for each key, ascending by the bytes of the key; `set` has the numbers of the
/// writes that are causally before the read. The only error is want of memory.
pub fn missed_by(
    alloc: Global,
    trace: &Trace,
    writes: &Writes,
    index: &WriteIndex,
    set: &NumberSet,
    read: u32,
) -> Result<Vec<u32>, NoMemory>
    requires legal { (app : App) × IsLegalTrace app trace.now }
    requires writes { AreWritesOf trace.now writes.now }
    requires index { IsIndexOf trace.now (length trace.now) index.now }
    requires read { is_at (λ e. words.reads e.call) trace.now read ≡ true }
    ensures { (past : ℕ → ℕ → Bool) → ((i : ℕ) → writes_at trace.now i ≡ true → past read i ≡ has set.now (number_at trace.now i))
        → IfOk result (λ missed. AreMissedAt trace.now past read missed.items) }
{
    let entry = trace.at(read);
    let mut missed = Vec::new(alloc);
    let Some(first) = key_from(entry) else {
        return Ok(missed);
    };
    for (key, places) in index.range(first..) {
        if !is_spoken(entry, key) {
            return Ok(missed);
        }
        let shown = version_shown(&entry.reply, &key.key);
        let newest = newest_missed(trace, writes, set, shown, places.as_slice());
        add_found(&mut missed, newest)?;
    }
    Ok(missed)
}
