ghost use Rattle.std.specs.Prelude.{ℕ, ◌≡◌, true, [], ◌∷◌, length, option_map, IfOk};
ghost use Rattle.anti_app.specs.declared.app.App.{App};
ghost use Rattle.law_causal.specs.Reads.{is_at};
ghost use Rattle.law_causal.specs.Words.{reads, rows_in};
ghost use Rattle.anti_past.specs.Pasts.{ArePastsOf};
ghost use Rattle.anti_proc.specs.Local.{id_at, row_ids, rows_ids};
ghost use Rattle.law_serial.specs.Order.{is_in_past, writes_at};
ghost use Rattle.anti_order.specs.inner.NumberSets.{has, room, room_for};
ghost use Rattle.anti_order.specs.inner.PastWrites.{AddsNumbers, carried_in, past_in};
ghost use Rattle.anti_order.specs.inner.Writes.{AreWritesOf, number_at};

use crate::number_set::NumberSet;
use crate::writes::Writes;
use anti_ids::{Lineage, NoMemory, WriteId};
use anti_kind::{Entry, Reply, Row};
use anti_past::Past;
use anti_trace::Trace;
use std::alloc::Global;

// What is told of the read at a place.
fn past_at(pasts: &[Option<Past>], read: u32) -> Option<&Past>
    ensures { option_map (λ past. past.now) result ≡ past_in pasts.now read }
{
    pasts.get(read as usize)?.as_ref()
}

// Adds the number of the write of an id, where there is one.
fn add_write(numbers: &mut NumberSet, writes: &Writes, id: &WriteId)
    ensures { AddsNumbers writes.now (id.now ∷ []) numbers.old numbers.new }
{
    if let Some(number) = writes.number_of(id) {
        numbers.insert(number);
    }
}

// The same of each id of a lineage.
fn add_lineage(numbers: &mut NumberSet, writes: &Writes, lineage: &Lineage)
    ensures { AddsNumbers writes.now lineage.now numbers.old numbers.new }
{
    for id in lineage.iter() {
        add_write(numbers, writes, id);
    }
}

// The same of the version that a row of a store shows; version 0 has no write.
fn add_version(numbers: &mut NumberSet, writes: &Writes, store: u32, row: &Row)
    ensures { AddsNumbers writes.now (id_at store row.now.key row.now.version) numbers.old numbers.new }
{
    if row.version == 0 {
        return;
    }
    let id = WriteId {
        store,
        key: row.key,
        version: row.version,
    };
    add_write(numbers, writes, &id)
}

// The same of the ids that a row brings: its own, and those of the lineage that is stored beside it.
fn add_row(numbers: &mut NumberSet, writes: &Writes, store: u32, row: &Row)
    ensures { AddsNumbers writes.now (row_ids store row.now) numbers.old numbers.new }
{
    add_version(numbers, writes, store, row);
    add_lineage(numbers, writes, &row.lineage)
}

// The same of rows.
fn add_rows(numbers: &mut NumberSet, writes: &Writes, store: u32, rows: &[Row])
    ensures { AddsNumbers writes.now (rows_ids store rows.now) numbers.old numbers.new }
{
    for row in rows {
        add_row(numbers, writes, store, row);
    }
}

// The same of the rows that a read shows.
fn add_shown(numbers: &mut NumberSet, writes: &Writes, read: &Entry)
    requires { reads read.now.call ≡ true }
    ensures { AddsNumbers writes.now
        (rows_ids read.now.object (rows_in read.now.call read.now.reply)) numbers.old numbers.new }
{
    match &read.reply {
        Reply::Shown(rows) => add_rows(numbers, writes, read.object, rows.as_slice()),
        _ => {}
    }
}

// The same of all that is carried into a read.
fn add_carried(numbers: &mut NumberSet, writes: &Writes, pasts: &[Option<Past>], read: u32)
    ensures { AddsNumbers writes.now (carried_in pasts.now read) numbers.old numbers.new }
{
    match past_at(pasts, read) {
        Some(past) => add_lineage(numbers, writes, &past.carried),
        None => {}
    }
}

/// The numbers of the writes of the past of a read, among those of so many. The only error is want of memory.
pub fn past_writes(
    alloc: Global,
    trace: &Trace,
    writes: &Writes,
    pasts: &[Option<Past>],
    read: u32,
) -> Result<NumberSet, NoMemory>
    requires writes { AreWritesOf trace.now writes.now }
    requires read { is_at (λ e. reads e.call) trace.now read ≡ true }
    ensures room { IfOk result (λ numbers. room numbers ≡ room_for (length writes.now.marks.items)) }
    ensures members { (app : App) → ArePastsOf app trace.now pasts.now → (i : ℕ) → writes_at trace.now i ≡ true
        → IfOk result (λ numbers. has numbers (number_at trace.now i) ≡ is_in_past app trace.now read i) }
{
    let mut numbers = NumberSet::none(alloc, writes.len())?;
    add_carried(&mut numbers, writes, pasts, read);
    add_shown(&mut numbers, writes, trace.at(read));
    Ok(numbers)
}
