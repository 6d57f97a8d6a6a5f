// Whether barriers, transfers and roots stand where they must: what the check says of documents.

use crate::made::assert_at;
use anti_app::read_app;
use anti_place::{Finding, Placement, Reason, Remark, placed, review};
use std::alloc::{AllocError, Global};

// The bodies of the handlers `one`, `two` and `three`.
type Bodies = [&'static str; 3];

// A document with a store of four kinds and a service with these handlers; a subscription starts `three`.
fn document(alloc: Global, [one, two, three]: &Bodies) -> Result<String, AllocError> {
    format!(in alloc;
        "regions = ['eu']
store = [{{name = 's', kind = 'kv', replicas = ['eu']}}, {{name = 't', kind = 'table', replicas = ['eu']}}, {{name = 'f', kind = 'topic', replicas = ['eu']}}, {{name = 'q', kind = 'queue', replicas = ['eu']}}]
sub = [{{name = 'jobs', store = 'q', channel = 'c', service = 'w', handler = 'three'}}]
[[service]]
name = 'w'
region = 'eu'
handler = [{{name = 'one', body = [{one}]}}, {{name = 'two', body = [{two}]}}, {{name = 'three', body = [{three}]}}]"
    )
}

// Bodies that are placed.
static PLACED: [Bodies; 8] = [
    ["", "", ""],
    [
        "'write s k a'",
        "'read s k as x', 'transfer x', 'barrier', 'read s j as y'",
        "",
    ],
    // a span of its own has nothing to wait for
    [
        "'write s k a', 'root', 'read s k as x'",
        "'write s k a', 'stop', 'root', 'scan t k as x'",
        "",
    ],
    // behind `nack` nothing runs
    ["'nack', 'write s k a as x untracked'", "", ""],
    // what is read last needs no transfer, unless the handler is called
    ["'read s k as x'", "'poll f n#1 as x'", ""],
    [
        "'call w two v as y'",
        "'barrier', 'read s k as x', 'transfer x'",
        "",
    ],
    ["'send w two v'", "'barrier', 'read s k as x'", ""],
    ["", "", "'barrier', 'read s k as x', 'transfer x', 'nack'"],
];

// Bodies that are not: the number of the first handler that fails, its line, and why.
static UNPLACED: [(Bodies, u32, u32, Reason); 24] = [
    (
        [
            "'write s k a as x', 'remove x'",
            "'write s k a as x untracked'",
            "",
        ],
        0,
        2,
        Reason::Removed,
    ),
    (
        ["'write s k a as x untracked'", "", ""],
        0,
        1,
        Reason::Untracked,
    ),
    // rows are left at each kind of statement that hands the lineage on
    (
        ["'read s k as x', 'write s j b'", "", ""],
        0,
        2,
        Reason::Untransferred,
    ),
    (
        ["'read s k as x', 'call w two v as y'", "", ""],
        0,
        2,
        Reason::Untransferred,
    ),
    (
        ["'read s k as x', 'send w two v'", "", ""],
        0,
        2,
        Reason::Untransferred,
    ),
    (
        ["'read s k as x', 'barrier'", "", ""],
        0,
        2,
        Reason::Untransferred,
    ),
    (
        ["'read s k as x', 'dryrun'", "", ""],
        0,
        2,
        Reason::Untransferred,
    ),
    (
        ["'read s k as x', 'read s j as y'", "", ""],
        0,
        2,
        Reason::Untransferred,
    ),
    (
        ["'read s k as x', 'scan t j as y'", "", ""],
        0,
        2,
        Reason::Untransferred,
    ),
    (
        ["'read s k as x', 'poll f n#1 as y'", "", ""],
        0,
        2,
        Reason::Untransferred,
    ),
    // and at the end and at a `nack` of a handler that is called, wherever the call stands
    (
        ["'call w two v as y'", "'barrier', 'read s k as x'", ""],
        1,
        3,
        Reason::Untransferred,
    ),
    (
        [
            "'call w two v as y'",
            "'barrier', 'read s k as x', 'nack'",
            "",
        ],
        1,
        3,
        Reason::Untransferred,
    ),
    (
        ["'nack', 'call w two v as y'", "'read s k as x'", ""],
        1,
        1,
        Reason::Unsettled,
    ),
    // what is carried is unsettled at each kind of read
    (
        ["'write s k a', 'read s k as x'", "", ""],
        0,
        2,
        Reason::Unsettled,
    ),
    (
        ["'write s k a', 'scan t k as x'", "", ""],
        0,
        2,
        Reason::Unsettled,
    ),
    (
        ["'write s k a', 'poll f n#1 as x'", "", ""],
        0,
        2,
        Reason::Unsettled,
    ),
    (
        [
            "'write s k a as x', 'barrier', 'append x', 'read s k as y'",
            "",
            "",
        ],
        0,
        4,
        Reason::Unsettled,
    ),
    (
        ["'call w two v as y', 'read s k as x'", "", ""],
        0,
        2,
        Reason::Unsettled,
    ),
    // at the start of a handler that a send or a subscription names
    (
        ["'send w two v'", "'read s k as x'", ""],
        1,
        1,
        Reason::Unsettled,
    ),
    (["", "", "'read s k as x'"], 2, 1, Reason::Unsettled),
    // a barrier on one branch alone, and a transfer on one
    (
        [
            "'write s k a'",
            "'read s k as x', 'transfer x', 'if x absent', 'barrier', 'end', 'read s j as y'",
            "",
        ],
        1,
        6,
        Reason::Unsettled,
    ),
    (
        [
            "'read s k as x', 'if x absent', 'transfer x', 'end', 'write s j b'",
            "",
            "",
        ],
        0,
        5,
        Reason::Untransferred,
    ),
    // on the second turn alone
    (
        ["'repeat 2', 'read s k as x', 'transfer x', 'end'", "", ""],
        0,
        2,
        Reason::Unsettled,
    ),
    // of two reasons at one line the rows that are left
    (
        [
            "'write s k a as w', 'barrier', 'read s k as x', 'append w', 'read s j as y'",
            "",
            "",
        ],
        0,
        5,
        Reason::Untransferred,
    ),
];

// What is told of a line: the number of its handler, its line, and why it fails; `None` of a barrier that never has to wait.
type Told = (u32, u32, Option<Reason>);

// Bodies, and all that is told of them.
static REVIEWED: [(Bodies, &[Told]); 6] = [
    (["'write s k a', 'barrier', 'read s k as x'", "", ""], &[]),
    // two reasons at one line, and a line behind it; faults of two handlers, and behind them a barrier
    (
        [
            "'write s k a as w', 'barrier', 'read s k as x', 'append w', 'read s j as y', 'write s k b'",
            "'barrier'",
            "'read s k as x'",
        ],
        &[
            (0, 5, Some(Reason::Untransferred)),
            (0, 5, Some(Reason::Unsettled)),
            (0, 6, Some(Reason::Untransferred)),
            (2, 1, Some(Reason::Unsettled)),
            (1, 1, None),
        ],
    ),
    // in a block that is gone through twice, and at the end
    (
        [
            "'repeat 3', 'read s k as x', 'end', 'call w two v as y'",
            "'barrier', 'read s k as x'",
            "",
        ],
        &[
            (0, 2, Some(Reason::Untransferred)),
            (0, 4, Some(Reason::Untransferred)),
            (1, 3, Some(Reason::Untransferred)),
        ],
    ),
    // a barrier behind a barrier, and one that is settled on one way alone
    (
        [
            "'read s k as x', 'transfer x', 'if x absent', 'barrier', 'end', 'barrier', 'barrier'",
            "",
            "",
        ],
        &[(0, 7, None)],
    ),
    // in a new span, and where no way leads
    (
        [
            "'write s k a', 'root', 'barrier'",
            "'write s k a', 'nack', 'barrier'",
            "",
        ],
        &[(0, 3, None), (1, 3, None)],
    ),
    // a handler that nothing names, and one that is started
    (
        ["'barrier'", "", "'barrier', 'barrier'"],
        &[(0, 1, None), (2, 2, None)],
    ),
];

// Whether the check says this of the application that the document with such bodies states. `false` where it states none or
// memory runs out.
fn is_told(alloc: Global, bodies: &Bodies, wanted: Placement) -> bool {
    let Ok(document) = document(alloc, bodies) else {
        return false;
    };
    let Ok(app) = read_app(alloc, document.as_bytes()) else {
        return false;
    };
    placed(&app) == wanted
}

// Whether a remark says this.
fn says(remark: &Remark, (handler, line, reason): &Told) -> bool {
    let found = match remark.finding {
        Finding::Fails(reason) => Some(reason),
        Finding::Superfluous => None,
    };
    remark.service == 0 && remark.handler == *handler && remark.line == *line && found == *reason
}

// Whether just this is told, in this order, of the application that the document with such bodies states. `false` where it states none
// or memory runs out.
fn are_told(alloc: Global, bodies: &Bodies, told: &[Told]) -> bool {
    let Ok(document) = document(alloc, bodies) else {
        return false;
    };
    let Ok(app) = read_app(alloc, document.as_bytes()) else {
        return false;
    };
    let Ok(remarks) = review(alloc, &app) else {
        return false;
    };
    if remarks.len() != told.len() {
        return false;
    }
    for (place, row) in told.iter().enumerate() {
        if !says(remarks.at(place), row) {
            return false;
        }
    }
    true
}

#[test]
fn placed_applications_are_told(rt: HostRuntime) {
    for (place, bodies) in PLACED.iter().enumerate() {
        assert_at(&rt, place, is_told(rt.alloc(), bodies, Placement::Yes));
    }
}

#[test]
fn the_first_failing_line_is_told(rt: HostRuntime) {
    for (place, (bodies, handler, line, reason)) in UNPLACED.iter().enumerate() {
        let wanted = Placement::No {
            service: 0,
            handler: *handler,
            line: *line,
            reason: *reason,
        };
        assert_at(&rt, place, is_told(rt.alloc(), bodies, wanted));
    }
}

#[test]
fn all_that_is_missing_is_told(rt: HostRuntime) {
    for (place, (bodies, told)) in REVIEWED.iter().enumerate() {
        assert_at(&rt, place, are_told(rt.alloc(), bodies, told));
    }
}
