ghost use Rattle.std.specs.Prelude.{◌≡◌, [], ◌++◌, true, unwrap_or, IfOk, IsTrue};
ghost use Rattle.std.specs.List.{list_all};
ghost use Rattle.anti_app.specs.Sound.{is_sound};
ghost use Rattle.law_causal.specs.Words.{brings};
ghost use Rattle.anti_proc.specs.Local.{id_at, row_ids};
ghost use Rattle.anti_proc.specs.Meaning.{stated_in};
ghost use Rattle.anti_ids.specs.Ids.{has_id};
ghost use Rattle.anti_past.specs.inner.Came.{IsRear, brought_at, holds, ids_since};

use anti_app::{App, store_names};
use anti_baggage::BaggageFault;
use anti_ids::{Ids, Lineage, Name, NoMemory, WriteId};
use anti_kind::{Call, Entry, Handle, Message, Reply, Row};
use anti_trace::Trace;
use std::alloc::Global;

// Whether an id that was met is known to come behind another, by the store and the version alone: names are dear to compare.
fn goes_behind(met: &WriteId, id: &WriteId) -> bool {
    met.store > id.store || met.store == id.store && met.version > id.version
}

// Whether an id is met in the rest of a lineage. The rest is gone along up to that id, or to the first that is known to come behind it, so
// that ids which ascend stay in step with it where it has more than they.
fn meets(lineage: &Lineage, rest: &mut Ids<'_>, id: &WriteId) -> bool
    requires { IsRear lineage.now rest.old }
    ensures there { IsTrue result → has_id id.now lineage.now ≡ true }
    ensures rear { IsRear lineage.now rest.new }
{
    while let Some(met) = rest.next() {
        if goes_behind(met, id) {
            return false;
        }
        if met.version == id.version && met == id {
            return true;
        }
    }
    false
}

// Whether an id is in a lineage, of which the rest was not met yet. It is searched for only where it is not met there.
fn holds_next(lineage: &Lineage, rest: &mut Ids<'_>, id: &WriteId) -> bool
    requires { IsRear lineage.now rest.old }
    ensures is { result ≡ has_id id.now lineage.now }
    ensures rear { IsRear lineage.now rest.new }
{
    meets(lineage, rest, id) || lineage.contains(id)
}

/// Whether all ids of a lineage are in another. What was carried before is mostly a front of what is carried now.
pub fn holds_all(lineage: &Lineage, ids: &Lineage) -> bool
    ensures { result ≡ holds lineage.now ids.now }
{
    let mut rest = lineage.iter();
    for id in ids.iter() {
        if !holds_next(lineage, &mut rest, id) {
            return false;
        }
    }
    true
}

// Whether the id of a version of a key is in a lineage; version 0 has none.
fn holds_version(lineage: &Lineage, store: u32, key: Name, version: u64) -> bool
    ensures { result ≡ holds lineage.now (id_at store key version) }
{
    if version == 0 {
        return true;
    }
    lineage.contains(&WriteId {
        store,
        key,
        version,
    })
}

// Whether the id of a version of a key, and what is kept beside it, are in a lineage.
fn holds_kept(lineage: &Lineage, store: u32, key: Name, version: u64, kept: &Lineage) -> bool
    ensures { result ≡ holds lineage.now (id_at store key version ++ kept.now) }
{
    holds_version(lineage, store, key, version) && holds_all(lineage, kept)
}

// Whether the id of a write, and what is kept beside it, where that is told, are in a lineage.
fn holds_write(
    lineage: &Lineage,
    store: u32,
    key: Name,
    version: u64,
    over: &Option<Handle<Lineage>>,
) -> bool
    ensures { result ≡ holds lineage.now (id_at store key version ++ unwrap_or over.now []) }
{
    match over {
        Some(kept) => holds_kept(lineage, store, key, version, kept.get()),
        None => holds_version(lineage, store, key, version),
    }
}

// Whether the ids that a row of a store brings are in a lineage.
fn holds_row(lineage: &Lineage, store: u32, row: &Row) -> bool
    ensures { result ≡ holds lineage.now (row_ids store row.now) }
{
    holds_kept(lineage, store, row.key, row.version, &row.lineage)
}

fn holds_rows(lineage: &Lineage, store: u32, rows: &[Row]) -> bool
    ensures { result ≡ list_all (λ row. holds lineage.now (row_ids store row)) rows.now }
{
    for row in rows {
        if !holds_row(lineage, store, row) {
            return false;
        }
    }
    true
}

// The lineage that a message states; one that states none brings the empty lineage.
fn stated(alloc: Global, app: &App, message: &Message) -> Result<Lineage, NoMemory>
    requires { IsTrue (is_sound app.now) }
    ensures { IfOk result (λ ids. ids ≡ stated_in app.now message.now) }
{
    let names = store_names(alloc, app)?;
    match message.baggage.lineage(alloc, names.as_slice()) {
        Ok(lineage) => Ok(lineage),
        Err(BaggageFault::NoMemory) => Err(NoMemory),
        Err(_) => Ok(Lineage::root(alloc)),
    }
}

// Whether the lineage of a message is in another.
fn holds_message(
    alloc: Global,
    app: &App,
    lineage: &Lineage,
    message: &Message,
) -> Result<bool, NoMemory>
    requires { IsTrue (is_sound app.now) }
    ensures { IfOk result (λ answer. answer ≡ holds lineage.now (stated_in app.now message.now)) }
{
    let ids = stated(alloc, app, message)?;
    Ok(holds_all(lineage, &ids))
}

// Whether all that an entry brings is in a lineage.
fn holds_brought(
    alloc: Global,
    app: &App,
    lineage: &Lineage,
    entry: &Entry,
) -> Result<bool, NoMemory>
    requires { IsTrue (is_sound app.now) }
    ensures { IfOk result (λ answer. answer ≡ holds lineage.now (brings app.now entry.now)) }
{
    let store = entry.object;
    match (&entry.call, &entry.reply) {
        (Call::Write { .. }, Reply::Written { key, version, over }) => Ok(holds_write(
            lineage,
            store,
            *key.get(),
            *version,
            over,
        )),
        (Call::Read { .. }, Reply::Shown(rows)) => Ok(holds_rows(lineage, store, rows.as_slice())),
        (Call::Scan { .. }, Reply::Shown(rows)) => Ok(holds_rows(lineage, store, rows.as_slice())),
        (Call::Poll { .. }, Reply::Shown(rows)) => Ok(holds_rows(lineage, store, rows.as_slice())),
        (Call::Pull { .. } | Call::Repull { .. }, Reply::Pulled(row)) => Ok(holds_row(
            lineage,
            store,
            row.get(),
        )),
        (Call::Take { .. } | Call::TakeReply { .. }, Reply::Got { message, .. }) => holds_message(
            alloc,
            app,
            lineage,
            message.get(),
        ),
        _ => Ok(true),
    }
}

// Whether all that the entry at an index brings is in a lineage. Past the end there is none.
fn holds_at(
    alloc: Global,
    app: &App,
    lineage: &Lineage,
    trace: &Trace,
    index: u32,
) -> Result<bool, NoMemory>
    requires { IsTrue (is_sound app.now) }
    ensures { IfOk result (λ answer. answer ≡ holds lineage.now (brought_at app.now trace.now index)) }
{
    if index < trace.len() {
        return holds_brought(alloc, app, lineage, trace.at(index));
    }
    Ok(true)
}

/// Whether all that the entries at some indices bring is in a lineage.
pub fn holds_since(
    alloc: Global,
    app: &App,
    lineage: &Lineage,
    trace: &Trace,
    since: &[u32],
) -> Result<bool, NoMemory>
    requires { IsTrue (is_sound app.now) }
    ensures { IfOk result (λ answer. answer ≡ holds lineage.now (ids_since app.now trace.now since.now)) }
{
    for index in since {
        if !holds_at(alloc, app, lineage, trace, *index)? {
            return Ok(false);
        }
    }
    Ok(true)
}
