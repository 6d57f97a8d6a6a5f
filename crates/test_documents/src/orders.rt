// The orders that explain what spans read: in the records of documents, and of a run that is kept.
ghost use Rattle.std.specs.Prelude.{◌<◌, length, IsTrue};
ghost use Rattle.anti_app.specs.Sound.{is_sound};
ghost use Rattle.anti_trace.specs.Legal.{IsLegalTrace};

use crate::call_rows::{ENDED, assert_texts, served};
use crate::past::WHOLE;
use crate::run_rows::{PlayedRun, Wanted, assert_run};
use anti_kind::Birth;
use anti_order::{Marks, OrderAnswer, SpanAnswer, answers, count_answers, order, order_of};
use anti_past::reads;
use anti_trace::Mark;
use std::alloc::Global;

// A write over another of which its process knows nothing, and a reader who sees it before what it keeps is there: the stores are the
// objects 0 and 1, and the inboxes of the services 2 to 4.
const REPLACED: &str =
    "choices = ['take a 1', 'go a.1', 'go a.1', 'go a.1', 'take b 1', 'go b.1', 'ship s eu 3', 'take r 1', 'go r.1', 'go r.1', 'go r.1', 'ship t eu 1', 'go r.1', 'go r.1', 'ship s eu 1', 'go r.1', 'go r.1', 'go r.1']
regions = ['us', 'eu']
store = [{name = 's', kind = 'kv', replicas = ['eu']}, {name = 't', kind = 'topic', replicas = ['eu']}]
request = [{service = 'a', handler = 'run'}, {service = 'b', handler = 'run'}, {service = 'r', handler = 'run'}]
[[service]]
name = 'a'
region = 'us'
[[service.handler]]
name = 'run'
body = ['write s x 1', 'write s k u', 'write t n note']
[[service]]
name = 'b'
region = 'us'
[[service.handler]]
name = 'run'
body = ['write s k v']
[[service]]
name = 'r'
region = 'eu'
[[service.handler]]
name = 'run'
body = ['read s k as p', 'transfer p', 'barrier', 'read s x as q', 'transfer q', 'poll t n#1 as o', 'transfer o', 'barrier', 'read s k as z']";

// What is answered of the run of `REPLACED`.
static ORDERS: [Wanted; 4] = [
    // of the reader
    Wanted::Order(4, &[(0, 1), (0, 2), (0, 3), (0, 5), (0, 8), (1, 1), (1, 3)]),
    // of the last read alone: what it needs, and then the read
    Wanted::LastOrder(&[(0, 1), (0, 2), (0, 3), (1, 1), (1, 3)]),
    // no other span has a read
    Wanted::Orders(1),
    // a process that read nothing: all writes
    Wanted::Order(3, &[(0, 1), (0, 2), (0, 3), (1, 1)]),
];

// The ends of the records of documents, and the whole of the first.
static ENDS: [(&str, &str); 4] = [
    // the first read shows version 3 of a key, behind version 2 that it replaces, and the barriers wait for what version 3 keeps
    (
        REPLACED,
        "record 1
1 a.1 a.1/1 take 1 = got 1 request run 0 \"\" 1;
1 b.1 b.1/1 take 1 = got 1 request run 0 \"\" 1;
1 r.1 r.1/1 take 1 = got 1 request run 0 \"\" 1;
2 s.1 a.1/1 write x \"1\" 1; = x@1
3 s.2 a.1/1 write k \"u\" 1;s/x@1 = k@2
4 s.3 b.1/1 write k \"v\" 1; = k@3 over 1;s/x@1,s/k@2
4 t.1 a.1/1 write n \"note\" 1;s/x@1,s/k@2 = n#1@1
5 s.4 ~0 ship eu 3 1 = moved
6 s.5 r.1/1 read eu k = k@3 \"v\" 1;s/x@1,s/k@2
6 t.2 ~0 ship eu 1 1 = moved
7 s.6 ~0 ship eu 1 1 = moved
8 s.7 r.1/1 look eu 1;s/x@1,s/k@2,s/k@3 = clear
9 s.8 r.1/1 read eu x = x@1 \"1\" 1;
10 t.3 r.1/1 poll eu n#1 = n#1@1 \"note\" 1;s/x@1,s/k@2
wait 10 go r.1
wait 11 go r.1
wait 13 go r.1
wait 14 go r.1
process a.1 a run fine
process b.1 b run fine
process r.1 r run open
span r.1/1 order s.1 s.2 s.3 s.5 s.8 t.1 t.3
end 14
",
    ),
    // a span is guarded, and yet a loss of another process bars its order
    (
        served!(
            "'take w 1', 'go w.1', 'ship s eu 1', 'go w.1', 'go w.1', 'take w 1', 'go w.2', 'go w.2'",
            "'write s k a', 'barrier', 'read s k as x'",
            "'read s k as p', 'write s j b'"
        ),
        "process w.2 w two fine
span w.1/1 lossy s.6
span w.2/1 lossy s.6
end 8
",
    ),
    // two spans of one process: what the first did not wait for is nothing to the second
    (
        served!(
            "'take w 1', 'go w.1', 'go w.1', 'go w.1'",
            "'write s k a', 'read s k as x', 'root', 'read s k as y'",
            ""
        ),
        "process w.1 w one fine
span w.1/1 unguarded s.2
span w.1/2 order s.3 s.1
end 4
",
    ),
    // a scan shows the last write to each key before it: it comes behind all writes that one of its rows depends on
    (
        "regions = ['eu']
choices = ['take w 1', 'go w.1', 'go w.1', 'go w.1', 'ship s eu 1', 'ship s eu 2', 'take w 1', 'go w.2']
store = [{name = 's', kind = 'table', replicas = ['eu']}]
request = [{service = 'w', handler = 'one'}, {service = 'w', handler = 'two'}]
service = [{name = 'w', region = 'eu', handler = [{name = 'one', body = ['write s ka 1', 'write s kb 2', 'write s ka 3']}, {name = 'two', body = ['scan s k as x']}]}]",
        "process w.2 w two fine
span w.2/1 order s.1 s.2 s.6 s.3
end 8
",
    ),
];

// Whether an answer is an order with these marks. Where memory runs out it is not.
fn is_order(alloc: Global, answer: &OrderAnswer, marks: &[(u32, u32)]) -> bool {
    let OrderAnswer::Order(order) = answer else {
        return false;
    };
    let Ok(found) = order.to_list(alloc) else {
        return false;
    };
    let mut left = marks;
    for mark in found.as_slice() {
        let [(object, place), rest @ ..] = left else {
            return false;
        };
        if mark.object != *object || mark.place != *place {
            return false;
        }
        left = rest;
    }
    left.is_empty()
}

// Whether the entry at an index, which is given by its mark, is a read whose order has these marks.
fn has_order_at(alloc: Global, run: &PlayedRun, index: u32, marks: &[(u32, u32)]) -> bool
    requires sound { IsTrue (is_sound run.now.app) }
    requires legal { IsLegalTrace run.now.app run.now.trace }
    requires index { index < length run.now.trace }
{
    let entry = run.trace.at(index);
    if !reads(&entry.call) {
        return false;
    }
    let mark = Mark {
        object: entry.object,
        place: entry.place,
    };
    let mut chain = Marks::new(alloc);
    let Ok(()) = chain.add(mark) else {
        return false;
    };
    match order_of(alloc, &run.app, &run.trace, &chain) {
        Ok(answer) => is_order(alloc, &answer, marks),
        Err(_) => false,
    }
}

/// Whether the last entry of a run is a read whose order has these marks. Where memory runs out it is not.
pub fn has_last_order(alloc: Global, run: &PlayedRun, marks: &[(u32, u32)]) -> bool
    requires sound { IsTrue (is_sound run.now.app) }
    requires legal { IsLegalTrace run.now.app run.now.trace }
{
    let count = run.trace.len();
    if count == 0 {
        return false;
    }
    has_order_at(alloc, run, count - 1, marks)
}

/// Whether the reads in the first span of the process that began as the first entry of an object have an order with these marks. Where
/// memory runs out they have not.
pub fn has_order(alloc: Global, run: &PlayedRun, object: u32, marks: &[(u32, u32)]) -> bool
    requires sound { IsTrue (is_sound run.now.app) }
    requires legal { IsLegalTrace run.now.app run.now.trace }
{
    let birth = Birth { object, place: 1 };
    match order(alloc, &run.app, &run.trace, birth, 1) {
        Ok(answer) => is_order(alloc, &answer, marks),
        Err(_) => false,
    }
}

// Whether each of these answers is an order.
fn are_orders(answers: &[SpanAnswer]) -> bool {
    for answered in answers {
        let OrderAnswer::Order(_) = answered.answer else {
            return false;
        };
    }
    true
}

/// Whether so many spans of a run have a read, and each has an order. Where memory runs out that is not so.
pub fn have_orders(alloc: Global, run: &PlayedRun, count: usize) -> bool
    requires sound { IsTrue (is_sound run.now.app) }
    requires legal { IsLegalTrace run.now.app run.now.trace }
{
    match answers(alloc, &run.app, &run.trace) {
        Ok(all) => all.len() == count && are_orders(all.as_slice()),
        Err(_) => false,
    }
}

/// Whether some spans of a run have a read, and as is counted each has an order. Where memory runs out that is not so.
pub fn are_all_ordered(alloc: Global, run: &PlayedRun) -> bool
    requires sound { IsTrue (is_sound run.now.app) }
    requires legal { IsLegalTrace run.now.app run.now.trace }
{
    match count_answers(alloc, &run.app, &run.trace) {
        Ok(counts) => counts.ordered > 0 && counts.unguarded == 0 && counts.lossy == 0,
        Err(_) => false,
    }
}

#[test]
fn records_end_with_their_orders(rt: HostRuntime) {
    assert_texts(&rt, rt.alloc(), &ENDED, &ENDS);
}

#[test]
fn spans_and_reads_have_their_orders(rt: HostRuntime) {
    assert_run(&rt, rt.alloc(), REPLACED, &ORDERS);
}

#[test]
fn each_span_of_a_whole_application_has_an_order(rt: HostRuntime) {
    assert_run(&rt, rt.alloc(), WHOLE, &[Wanted::Orders(18)]);
}
