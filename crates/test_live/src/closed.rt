// Whether the histories of stores that were closed are what the stores do.
ghost use Rattle.std.specs.Prelude.{[], IfOk};
ghost use Rattle.anti_kind.specs.Machines.{StandsFor};
ghost use Rattle.anti_live.specs.Clients.{IsOf};

use anti_blob::Blob;
use anti_ids::{Copies, Lineage, NoMemory};
use anti_kind::{Actor, Answer, Asking, Entry, Handle, Machine, Recorded, Reply, Row};
use anti_kv::Kv;
use anti_live::{Client, Live};
use anti_table::Table;
use std::alloc::Global;

// Whether two lineages have the same ids.
fn same_ids(one: &Lineage, other: &Lineage) -> bool {
    let mut others = other.iter();
    for id in one.iter() {
        match others.next() {
            Some(also) if *also == *id => {}
            _ => return false,
        }
    }
    others.next().is_none()
}

// Whether two writes keep the same.
fn same_kept(one: &Option<Handle<Lineage>>, other: &Option<Handle<Lineage>>) -> bool {
    match (one, other) {
        (Some(kept), Some(also)) => same_ids(kept.get(), also.get()),
        (None, None) => true,
        _ => false,
    }
}

// Whether two rows are the same.
fn same_row(one: &Row, other: &Row) -> bool {
    one.key == other.key
        && one.version == other.version
        && one.value.bytes() == other.value.bytes()
        && same_ids(&one.lineage, &other.lineage)
}

// Whether rows are the same, each in its place.
fn same_rows(one: &[Row], other: &[Row]) -> bool {
    if one.len() != other.len() {
        return false;
    }
    for place in 0..one.len() {
        if !same_row(&one[place], &other[place]) {
            return false;
        }
    }
    true
}

// Whether two replies of stores that are read by keys are the same.
fn same_reply(one: &Reply, other: &Reply) -> bool {
    match (one, other) {
        (
            Reply::Written { key, version, over },
            Reply::Written {
                key: named,
                version: wrote,
                over: kept,
            },
        ) => *key.get() == *named.get() && version == wrote && same_kept(over, kept),
        (Reply::Shown(rows), Reply::Shown(shown)) => same_rows(rows.as_slice(), shown.as_slice()),
        (
            Reply::Missing { missing, unwritten },
            Reply::Missing {
                missing: absent,
                unwritten: never,
            },
        ) => same_ids(missing.get(), absent.get()) && same_ids(unwritten.get(), never.get()),
        (Reply::Moved, Reply::Moved) => true,
        _ => false,
    }
}

// Whether the call of an entry, which a carrier made, is made once more, at the same place and stamp and with the same reply. The asker's
// clock stands just before the stamp, so that the stamp is the same only where it is behind that of each entry before.
fn is_made_again<M: Machine>(alloc: Global, object: &mut Recorded<M>, entry: &Entry) -> bool {
    let Ok(call) = entry.call.copy(alloc) else {
        return false;
    };
    let asking = Asking {
        object: entry.object,
        actor: entry.actor,
        span: entry.span,
        clock: entry.stamp.saturating_sub(1),
        call,
    };
    let Answer::Made {
        place,
        stamp,
        reply,
    } = object.ask(entry.seat, asking)
    else {
        return false;
    };
    matches!(entry.actor, Actor::Carrier(_))
        && place == entry.place
        && stamp == entry.stamp
        && same_reply(&reply, &entry.reply)
}

// Whether two objects hold and owe the same, and have as much in the regions 0 and 1.
fn stand_alike<M: Machine, N: Machine>(one: &M, other: &N) -> bool {
    one.held() == other.held()
        && one.owed() == other.owed()
        && one.upto(0) == other.upto(0)
        && one.upto(1) == other.upto(1)
}

// Whether the entries of a history are made once more by an object at its start, with stamps that ascend, and it then stands as the one
// that was closed.
fn is_replayed<M: Machine + Drop, N: Machine>(
    alloc: Global,
    start: Result<M, NoMemory>,
    closed: &N,
    history: &[Entry],
) -> bool
    requires { IfOk start (λ m. StandsFor (M.start m) (M.Stands m) []) }
{
    let Ok(start) = start else {
        return false;
    };
    let Ok(mut object) = Recorded::new(alloc, start) else {
        return false;
    };
    let mut last = 0;
    for entry in history {
        if entry.stamp <= last || !is_made_again(alloc, &mut object, entry) {
            return false;
        }
        last = entry.stamp;
    }
    stand_alike(object.machine(), closed)
}

/// Whether the stores are closed, and their histories have so many entries and are replayed.
pub fn close_well(alloc: Global, live: Live, client: Client, entries: u32) -> bool
    requires { IsOf live client }
{
    let Ok(kepts) = live.close(client) else {
        return false;
    };
    let [(posts, wrote), (notes, noted), (files, filed)] = kepts.as_slice() else {
        return false;
    };
    let made = wrote
        .len()
        .saturating_add(noted.len())
        .saturating_add(filed.len());
    made == entries as usize
        && is_replayed(alloc, Kv::new(alloc, 0, &[0, 1]), posts, wrote.as_slice())
        && is_replayed(
            alloc,
            Table::new(alloc, 1, &[0, 1]),
            notes,
            noted.as_slice(),
        )
        && is_replayed(alloc, Blob::new(alloc, 2, &[0]), files, filed.as_slice())
}
