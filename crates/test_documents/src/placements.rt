// What `place` and `review` write, and what a placement is worth: the runs of a placed application, whatever their schedule.
use crate::call_rows::{CallRow, STEP, assert_of, assert_texts, comes_to, served};
use crate::past::WHOLE;
use crate::run_rows::{Wanted, holds};
use anti_ids::Bytes;
use std::alloc::Global;

// A call of `place`.
const PLACE: CallRow = CallRow {
    word: b"place",
    ..STEP
};

// A call of `review`.
const REVIEW: CallRow = CallRow {
    word: b"review",
    ..STEP
};

// Documents, and what is said of their lines.
static REVIEWS: [(&str, &str); 4] = [
    (served!("", "", ""), "review 1\nend 0\n"),
    // a barrier that one way passes has to wait on the other
    (
        served!(
            "",
            "'write s k a'",
            "'read s k as x', 'transfer x', 'if x absent', 'barrier', 'end', 'read s j as y'"
        ),
        "review 1\nw two 6 unsettled\nend 1\n",
    ),
    // several lines, and two reasons at one of them
    (
        served!(
            "",
            "'read s k as x', 'write s j b as y', 'read s j as z', 'remove y'",
            "'write s k a as x untracked'"
        ),
        "review 1\nw one 2 untransferred\nw one 3 untransferred\nw one 3 unsettled\nw one 4 removed\nw two 1 untracked\nend 5\n",
    ),
    // barriers before anything is carried, behind a barrier, and behind a block whose barrier one way passes
    (
        served!(
            "",
            "'barrier', 'write s k a', 'barrier', 'barrier'",
            "'read s k as x', 'transfer x', 'if x absent', 'barrier', 'end', 'barrier'"
        ),
        "review 1\nw one 1 superfluous\nw one 4 superfluous\nend 2\n",
    ),
];

// Documents that are not placed, and the line that is written of each.
static LINES: [(&str, &str); 6] = [
    // a barrier that one way passes
    (
        served!(
            "",
            "'write s k a'",
            "'read s k as x', 'transfer x', 'if x absent', 'barrier', 'end', 'read s j as y'"
        ),
        "unplaced w two 6 unsettled\n",
    ),
    // the second turn of a block
    (
        served!("", "'repeat 2', 'read s k as x', 'transfer x', 'end'", ""),
        "unplaced w one 2 unsettled\n",
    ),
    // the end of a handler that is called
    (
        served!("", "'call w two a as y'", "'barrier', 'read s k as x'"),
        "unplaced w two 3 untransferred\n",
    ),
    (
        served!("", "'read s k as x', 'write s j b'", ""),
        "unplaced w one 2 untransferred\n",
    ),
    (
        served!("", "", "'write s k a as x untracked', 'remove x'"),
        "unplaced w two 1 untracked\n",
    ),
    (
        served!("", "'write s k a as x', 'remove x'", ""),
        "unplaced w one 2 removed\n",
    ),
];

// A document that is refused, and one whose line is not written to its end.
static FAULTS: [(&str, CallRow); 2] = [
    (
        "regions = ['us', 'us']",
        CallRow {
            status: 5,
            err: b"app 7 region 2 0\n",
            ..PLACE
        },
    ),
    (
        WHOLE,
        CallRow {
            most: 3,
            write_fails: 2,
            status: 4,
            out: b"pla",
            err: b"write fault\n",
            ..PLACE
        },
    ),
];

// Schedules of the whole application: births in other orders, calls that come twice, shipments before the reads that they serve, pulls before
// anything else is brought, and runs that stop on their way.
static SCHEDULES: [&str; 10] = [
    "'finish'",
    "'take front 6', 'take front 1', 'take front 3', 'finish'",
    "'take admin 1', 'go admin.1', 'ship users us 1 1', 'take front 1', 'go front.1', 'take pics 1', 'finish'",
    "'take front 1', 'go front.1', 'repost pics 1', 'take pics 1', 'take pics 1', 'finish'",
    "'take admin 2', 'go admin.1', 'take admin 1', 'go admin.2', 'ship users ap 1', 'ship users us 1', 'ship users us 2', 'finish'",
    "'take front 2', 'go front.1', 'take pics 1', 'go pics.2', 'go pics.2', 'go front.1', 'go front.1', 'take names 1', 'go names.2', 'go names.2'",
    "'take front 2', 'go front.1', 'finish', 'take front 1', 'finish'",
    "'take admin 1', 'take front 1', 'go front.1', 'go admin.1', 'take pics 1', 'go pics.2', 'ship media ap 1', 'finish', 'finish'",
    "'take front 1', 'take front 1', 'take front 1', 'go front.1', 'go front.2', 'take pics 2', 'take pics 1', 'go pics.3', 'finish'",
    "'take admin 1', 'go admin.1', 'finish', 'again users us 1', 'repull viewers 1', 'go feed.7', 'finish'",
];

// The whole application with these choices. `None` where memory runs out.
fn scheduled(alloc: Global, choices: &str) -> Option<Bytes> {
    let Some((before, after)) = WHOLE.split_once("'finish'") else {
        return None;
    };
    let mut document = Bytes::new(alloc);
    for piece in [before, choices, after] {
        let Ok(()) = document.append(piece.as_bytes()) else {
            return None;
        };
    }
    Some(document)
}

// Whether by this schedule each span with a read has an order.
fn is_ordered(alloc: Global, choices: &str) -> bool {
    match scheduled(alloc, choices) {
        Some(document) => holds(alloc, document.bytes(), &Wanted::AllOrdered),
        None => false,
    }
}

#[test]
fn documents_are_placed_or_told_where_not(rt: HostRuntime) {
    assert_texts(&rt, rt.alloc(), &PLACE, &[(WHOLE, "placed\n")]);
    assert_texts(&rt, rt.alloc(), &PLACE, &LINES);
}

#[test]
fn lines_are_reviewed(rt: HostRuntime) {
    assert_texts(&rt, rt.alloc(), &REVIEW, &REVIEWS);
}

#[test]
fn a_refused_document_is_not_placed(rt: HostRuntime) {
    for (document, wanted) in &FAULTS {
        let is_so = comes_to(rt.alloc(), &[wanted.word], document.as_bytes(), wanted);
        assert_of(&rt, document, is_so);
    }
}

#[test]
fn each_run_of_a_placed_application_has_all_its_orders(rt: HostRuntime) {
    for choices in &SCHEDULES {
        assert_of(&rt, choices, is_ordered(rt.alloc(), choices));
    }
}
