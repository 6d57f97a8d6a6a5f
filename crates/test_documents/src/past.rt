// What the processes of a run carried and lost, which of its reads are settled, and the spans with a read: by the trace that is kept.
ghost use Rattle.std.specs.Prelude.{◌≡◌, ◌<◌, length, false, true, IsTrue};
ghost use Rattle.anti_app.specs.Sound.{is_sound};
ghost use Rattle.anti_proc.specs.Births.{is_birth};
ghost use Rattle.anti_trace.specs.Legal.{IsLegalTrace};
ghost use Rattle.law_causal.specs.Causal.{is_process};

use crate::call_rows::served;
use crate::pulls::BARRIER_WAITS;
use crate::run_rows::{PlayedRun, Wanted, assert_run, assert_runs};
use anti_app::store_names;
use anti_baggage::encode_one;
use anti_ids::{Lineage, Name};
use anti_kind::{Actor, Entry};
use anti_past::{Span, carried, first_loss, reads, settled, spans};
use std::alloc::Global;

// Documents in which an entry lacks what came to its span before. The store is object 0, the inbox of the service object 1.
static LOSSES: [(&str, Wanted); 8] = [
    // what was read is not transferred, and then something is written, read or sent
    (
        served!(
            "'take w 1', 'go w.1', 'ship s eu 1', 'take w 1', 'go w.2', 'go w.2'",
            "'write s k a'",
            "'read s k as p', 'write s j b'"
        ),
        Wanted::Loss((0, 4), "1;"),
    ),
    (
        served!(
            "'take w 1', 'go w.1', 'ship s eu 1', 'take w 1', 'go w.2', 'go w.2'",
            "'write s k a'",
            "'read s k as p', 'read s k as q'"
        ),
        Wanted::Loss((0, 4), "1;"),
    ),
    (
        served!(
            "'take w 1', 'go w.1', 'ship s eu 1', 'take w 1', 'go w.2', 'go w.2'",
            "'write s k a'",
            "'read s k as p', 'send w one v'"
        ),
        Wanted::Loss((1, 3), "1;"),
    ),
    // a write is taken out, before another, before a barrier, and before the reply
    (
        served!(
            "'take w 1', 'go w.1', 'go w.1'",
            "'write s k a as x', 'remove x', 'write s j b'",
            ""
        ),
        Wanted::Loss((0, 2), "1;"),
    ),
    (
        served!(
            "'take w 1', 'go w.1', 'go w.1', 'ship s eu 1', 'go w.1'",
            "'write s k a', 'write s j b as x', 'remove x', 'barrier'",
            ""
        ),
        Wanted::Loss((0, 4), "1;s/k@1"),
    ),
    (
        served!(
            "'take w 1', 'go w.1', 'take w 2', 'go w.3', 'go w.3'",
            "'call w two v as y'",
            "'write s k a as x', 'remove x'"
        ),
        Wanted::Loss((1, 4), "1;"),
    ),
    // a write is untracked, before a read, and in a later span before another write
    (
        served!(
            "'take w 1', 'go w.1', 'go w.1', 'go w.1'",
            "'write s k a', 'write s j b as x untracked', 'read s k as y'",
            ""
        ),
        Wanted::Loss((0, 3), "1;s/k@1"),
    ),
    (
        served!(
            "'take w 1', 'go w.1', 'go w.1', 'go w.1', 'go w.1'",
            "'write s a 1 as x untracked', 'root', 'write s b 2 as y untracked', 'write s c 3', 'write s d 4'",
            ""
        ),
        Wanted::Loss((0, 3), "1;"),
    ),
];

// Documents in which none does.
static NO_LOSSES: [(&str, Wanted); 7] = [
    (
        served!(
            "'take w 1', 'go w.1', 'go w.1'",
            "'write s k a', 'read s k as x'",
            "'nack'"
        ),
        Wanted::NoLoss,
    ),
    (
        served!(
            "'take w 1', 'go w.1', 'ship s eu 1', 'take w 1', 'go w.2', 'go w.2'",
            "'write s k a'",
            "'read s k as p', 'transfer p', 'write s j b'"
        ),
        Wanted::NoLoss,
    ),
    (
        served!(
            "'take w 1', 'go w.1', 'go w.1'",
            "'write s k a as x', 'remove x', 'append x', 'write s j b'",
            ""
        ),
        Wanted::NoLoss,
    ),
    // what was lost in one span is none of the next
    (
        served!(
            "'take w 1', 'go w.1', 'go w.1'",
            "'write s k a as x', 'remove x', 'root', 'write s j b'",
            ""
        ),
        Wanted::NoLoss,
    ),
    // nothing comes behind the untracked write
    (
        served!(
            "'take w 1', 'go w.1', 'go w.1'",
            "'write s k a', 'write s j b as x untracked'",
            ""
        ),
        Wanted::NoLoss,
    ),
    // the reply brings its lineage
    (
        served!(
            "'take w 1', 'go w.1', 'take w 2', 'go w.3', 'go w.3', 'go w.1', 'go w.1'",
            "'call w two v as y', 'write s j b'",
            "'write s k a'"
        ),
        Wanted::NoLoss,
    ),
    (BARRIER_WAITS, Wanted::NoLoss),
];

// Four writes, of which the last two stand behind a root.
const ROOT_BETWEEN: &str = served!(
    "'take w 1', 'go w.1', 'go w.1', 'go w.1', 'go w.1'",
    "'write s a 1', 'write s b 2', 'root', 'write s c 3', 'write s d 4'",
    ""
);

// What is carried into each of these writes.
static CARRIED: [Wanted; 4] = [
    Wanted::Carried((0, 1), "1;"),
    Wanted::Carried((0, 2), "1;s/a@1"),
    Wanted::Carried((0, 3), "1;"),
    Wanted::Carried((0, 4), "1;s/c@3"),
];

// Documents with reads, and whether each is settled, in the order of the trace.
static READS: [(&str, Wanted); 5] = [
    (
        served!(
            "'take w 1', 'go w.1', 'go w.1'",
            "'write s k a', 'read s k as x'",
            "'nack'"
        ),
        Wanted::Settled(&[false]),
    ),
    // a dry run that names what is missing, and one that finds it
    (
        served!(
            "'take w 1', 'go w.1', 'go w.1', 'go w.1', 'ship s eu 1', 'go w.1', 'go w.1'",
            "'write s k a', 'dryrun', 'read s k as x', 'dryrun', 'read s k as y'",
            ""
        ),
        Wanted::Settled(&[false, true]),
    ),
    // a barrier, and a write behind it
    (
        served!(
            "'take w 1', 'go w.1', 'ship s eu 1', 'go w.1', 'go w.1', 'go w.1', 'go w.1'",
            "'write s k a', 'barrier', 'read s k as x', 'write s j b', 'read s k as y'",
            ""
        ),
        Wanted::Settled(&[true, false]),
    ),
    // a root, behind which nothing is carried
    (
        served!(
            "'take w 1', 'go w.1', 'go w.1'",
            "'write s k a', 'root', 'read s k as x'",
            ""
        ),
        Wanted::Settled(&[true]),
    ),
    (BARRIER_WAITS, Wanted::Settled(&[true])),
];

// Reads in two spans of one process, with a span between them that only writes, and before them a read of a later process.
const SPANS_WITH_READS: &str = served!(
    "'take w 1', 'take w 1', 'go w.2', 'go w.1', 'go w.1', 'go w.1', 'go w.1'",
    "'read s k as x', 'root', 'write s j a', 'root', 'read s k as y', 'read s j as z'",
    "'read s k as p'"
);

// Documents with reads, and their spans.
static SPANS: [(&str, Wanted); 2] = [
    (
        SPANS_WITH_READS,
        Wanted::Spans(&[(1, 1, 1), (1, 1, 3), (1, 2, 1)]),
    ),
    (BARRIER_WAITS, Wanted::Spans(&[(1, 3, 1)])),
];

/// An application of six services in three regions with a store of each kind, whose reads all stand behind barriers.
pub const WHOLE: &str = "regions = ['us', 'eu', 'ap']
workers = 4
seed = 7
choices = ['finish']
store = [
  { name = 'users', kind = 'table', replicas = ['us', 'eu', 'ap'] },
  { name = 'posts', kind = 'kv', replicas = ['us', 'eu', 'ap'] },
  { name = 'media', kind = 'blob', replicas = ['eu', 'ap'] },
  { name = 'jobs', kind = 'queue', replicas = ['us', 'eu'] },
  { name = 'feed', kind = 'topic', replicas = ['eu', 'ap'] },
]
sub = [
  { name = 'spreaders', store = 'jobs', channel = 'j', service = 'fan', handler = 'spread' },
  { name = 'viewers', store = 'feed', channel = 'f', service = 'view', handler = 'show' },
]
request = [
  { service = 'admin', handler = 'join' },
  { service = 'admin', handler = 'join' },
  { service = 'front', handler = 'post', value = 'one' },
  { service = 'front', handler = 'post', value = 'two' },
  { service = 'front', handler = 'post', value = 'three' },
  { service = 'front', handler = 'post', value = 'four' },
  { service = 'front', handler = 'post', value = 'five' },
  { service = 'front', handler = 'post', value = 'six' },
]

[[service]]
name = 'front'
region = 'us'
handler = [{ name = 'post', body = ['call pics put $in as m', 'call names who ann as u', 'write posts p1 $in', 'write jobs j p1'] }]

[[service]]
name = 'pics'
region = 'us'
handler = [{ name = 'put', body = ['write media m1 $in', 'reply m1'] }]

[[service]]
name = 'names'
region = 'us'
handler = [{ name = 'who', body = ['barrier', 'scan users user as x', 'transfer x', 'reply $x'] }]

[[service]]
name = 'fan'
region = 'eu'
handler = [{ name = 'spread', body = ['barrier', 'read posts $in as p', 'transfer p', 'write feed f $in'] }]

[[service]]
name = 'view'
region = 'ap'
handler = [{ name = 'show', body = ['barrier', 'read posts $in as p', 'transfer p', 'barrier', 'read media m1 as q'] }]

[[service]]
name = 'admin'
region = 'us'
handler = [{ name = 'join', body = ['write users user-ann Ann'] }]";

// The spans of its reads, by the objects in which they begin: each of six posts is spread from the queue `jobs`, which is object 3, shown
// from the topic `feed`, which is object 4, and asks for names. The service `names` is object 7.
const BEGUN: [(u32, u32, u32); 18] = [
    (3, 0, 1),
    (3, 0, 1),
    (3, 0, 1),
    (3, 0, 1),
    (3, 0, 1),
    (3, 0, 1),
    (4, 0, 1),
    (4, 0, 1),
    (4, 0, 1),
    (4, 0, 1),
    (4, 0, 1),
    (4, 0, 1),
    (7, 0, 1),
    (7, 0, 1),
    (7, 0, 1),
    (7, 0, 1),
    (7, 0, 1),
    (7, 0, 1),
];

// What is so of its run: nothing is lost, and each read is settled.
static OF_WHOLE: [Wanted; 3] = [
    Wanted::NoLoss,
    Wanted::Settled(&[true; 24]),
    Wanted::Spans(&BEGUN),
];

// Whether an entry was made by a process, and is not its first.
fn is_later(entry: &Entry) -> bool
    ensures { result ≡ true → (is_process entry.now.actor ≡ true) × (is_birth entry.now ≡ false) }
{
    let Actor::Process(birth) = entry.actor else {
        return false;
    };
    if birth.object == entry.object {
        birth.place != entry.place
    } else {
        true
    }
}

// Whether a lineage has this text, over the names of the stores.
fn has_text(alloc: Global, stores: &[Name], lineage: &Lineage, text: &str) -> bool {
    match encode_one(alloc, stores, lineage) {
        Ok(found) => found.bytes() == text.as_bytes(),
        Err(_) => false,
    }
}

// Whether the lineage with this text is carried into the entry at an index, behind the first of its process.
fn is_carried_into(alloc: Global, run: &PlayedRun, index: u32, text: &str) -> bool
    requires sound { IsTrue (is_sound run.now.app) }
    requires legal { IsLegalTrace run.now.app run.now.trace }
    requires index { index < length run.now.trace }
{
    if !is_later(run.trace.at(index)) {
        return false;
    }
    let Ok(stores) = store_names(alloc, &run.app) else {
        return false;
    };
    match carried(alloc, &run.app, &run.trace, index) {
        Ok(lineage) => has_text(alloc, stores.as_slice(), &lineage, text),
        Err(_) => false,
    }
}

/// Whether the lineage with this text is carried into the entry at a place of an object. Where memory runs out it is not.
pub fn is_carried(alloc: Global, run: &PlayedRun, at: (u32, u32), text: &str) -> bool
    requires sound { IsTrue (is_sound run.now.app) }
    requires legal { IsLegalTrace run.now.app run.now.trace }
{
    for index in 0..run.trace.len() {
        let entry = run.trace.at(index);
        if entry.object == at.0 && entry.place == at.1 {
            return is_carried_into(alloc, run, index, text);
        }
    }
    false
}

/// Whether the entry at a place of an object is the first that loses an id. Where memory runs out it is not.
pub fn is_first_loss(alloc: Global, run: &PlayedRun, at: (u32, u32)) -> bool
    requires sound { IsTrue (is_sound run.now.app) }
    requires legal { IsLegalTrace run.now.app run.now.trace }
{
    match first_loss(alloc, &run.app, &run.trace) {
        Ok(Some(mark)) => mark.object == at.0 && mark.place == at.1,
        _ => false,
    }
}

/// Whether no entry loses an id. Where memory runs out that is not so.
pub fn has_no_loss(alloc: Global, run: &PlayedRun) -> bool
    requires sound { IsTrue (is_sound run.now.app) }
    requires legal { IsLegalTrace run.now.app run.now.trace }
{
    matches!(first_loss(alloc, &run.app, &run.trace), Ok(None))
}

/// Whether the reads of a run are settled as these answers say. Where memory runs out that is not so.
pub fn are_settled(alloc: Global, run: &PlayedRun, answers: &[bool]) -> bool
    requires sound { IsTrue (is_sound run.now.app) }
    requires legal { IsLegalTrace run.now.app run.now.trace }
{
    let mut left = answers;
    for index in 0..run.trace.len() {
        if !reads(&run.trace.at(index).call) {
            continue;
        }
        let Ok(answer) = settled(alloc, &run.app, &run.trace, index) else {
            return false;
        };
        let [wanted, rest @ ..] = left else {
            return false;
        };
        if answer != *wanted {
            return false;
        }
        left = rest;
    }
    left.is_empty()
}

// Whether these are the spans that are listed.
fn are_listed(found: &[Span], listed: &[(u32, u32, u32)]) -> bool {
    let mut left = listed;
    for one in found {
        let [(object, place, span), rest @ ..] = left else {
            return false;
        };
        let is_there = *place == 0 || one.birth.place == *place;
        if !is_there || one.birth.object != *object || one.span != *span {
            return false;
        }
        left = rest;
    }
    left.is_empty()
}

/// Whether the spans with a read in a run are those that are listed. Where memory runs out they are not.
pub fn are_spans(alloc: Global, run: &PlayedRun, listed: &[(u32, u32, u32)]) -> bool {
    match spans(alloc, &run.trace) {
        Ok(found) => are_listed(found.as_slice(), listed),
        Err(_) => false,
    }
}

#[test]
fn the_first_loss_is_found(rt: HostRuntime) {
    assert_runs(&rt, rt.alloc(), &LOSSES);
    assert_runs(&rt, rt.alloc(), &NO_LOSSES);
}

#[test]
fn a_root_gives_up_what_is_carried(rt: HostRuntime) {
    assert_run(&rt, rt.alloc(), ROOT_BETWEEN, &CARRIED);
}

#[test]
fn reads_are_settled_by_looks(rt: HostRuntime) {
    assert_runs(&rt, rt.alloc(), &READS);
}

#[test]
fn spans_with_a_read_are_listed(rt: HostRuntime) {
    assert_runs(&rt, rt.alloc(), &SPANS);
}

#[test]
fn behind_barriers_nothing_is_lost_and_each_read_is_settled(rt: HostRuntime) {
    assert_run(&rt, rt.alloc(), WHOLE, &OF_WHOLE);
}
