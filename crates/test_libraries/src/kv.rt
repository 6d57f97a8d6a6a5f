use crate::steps::{Asked, Step, Told, assert_steps};
use anti_kv::Kv;

// A version is shipped behind a later one of its key.
static LATE: [Step; 8] = [
    Step::Call(Asked::Write(b"k", b"a", &[]), Told::Wrote(b"k", 1), 1, 1),
    Step::Call(
        Asked::Write(b"k", b"b", &[]),
        Told::Kept(b"k", 2, &[(b"k", 1)]),
        2,
        2,
    ),
    Step::Call(Asked::Ship(2, 1), Told::Moved, 3, 1),
    Step::Call(Asked::Read(b"k"), Told::Rows(&[(b"k", 2, b"b")]), 4, 1),
    Step::Call(Asked::Ship(1, 1), Told::Moved, 5, 0),
    Step::Call(Asked::Read(b"k"), Told::Rows(&[(b"k", 2, b"b")]), 6, 0),
    Step::Call(Asked::Again(1, 1), Told::Moved, 7, 0),
    Step::Call(Asked::Read(b"k"), Told::Rows(&[(b"k", 2, b"b")]), 8, 0),
];

#[test]
fn a_late_shipment_takes_nothing_back(rt: HostRuntime) {
    let alloc = rt.alloc();
    assert_steps(&rt, alloc, Kv::new(alloc, 0, &[0]), &LATE);
}

// Writes over one another, and one to another key. Each tells what it keeps where the one that it replaces leaves more than it hands in.
static OVERWRITTEN: [Step; 5] = [
    Step::Call(
        Asked::Write(b"k", b"a", &[]),
        Told::Kept(b"k", 1, &[]),
        1,
        1,
    ),
    Step::Call(
        Asked::Write(b"k", b"b", &[]),
        Told::Kept(b"k", 2, &[(b"k", 1)]),
        2,
        2,
    ),
    Step::Call(
        Asked::Write(b"j", b"c", &[(b"k", 2)]),
        Told::Kept(b"j", 3, &[]),
        3,
        3,
    ),
    Step::Call(
        Asked::Write(b"k", b"d", &[]),
        Told::Kept(b"k", 4, &[(b"k", 1), (b"k", 2)]),
        4,
        4,
    ),
    Step::Call(
        Asked::Write(b"j", b"e", &[(b"i", 9), (b"k", 2)]),
        Told::Kept(b"j", 5, &[(b"k", 2), (b"j", 3), (b"i", 9)]),
        5,
        5,
    ),
];

#[test]
fn a_write_keeps_what_it_replaces(rt: HostRuntime) {
    let alloc = rt.alloc();
    assert_steps(&rt, alloc, Kv::new(alloc, 0, &[0]), &OVERWRITTEN);
}

// Writes over one another, the last of which keeps 512 ids. One over it would keep an id more; one to another key keeps none.
static FULL: [Step; 5] = [
    Step::Writes(b"k", 512),
    Step::Call(Asked::Write(b"k", b"v", &[]), Told::Needs(2), 512, 512),
    Step::Writes(b"k", 1),
    Step::Call(Asked::Write(b"k", b"v", &[]), Told::Needs(4097), 513, 513),
    Step::Call(
        Asked::Write(b"j", b"v", &[]),
        Told::Kept(b"j", 514, &[]),
        514,
        514,
    ),
];

#[test]
fn no_write_keeps_too_many_ids(rt: HostRuntime) {
    let alloc = rt.alloc();
    assert_steps(&rt, alloc, Kv::new(alloc, 0, &[0]), &FULL);
}

// A look for a version, of which a later one is shipped; then the earlier one is shipped.
static LOOKED: [Step; 8] = [
    Step::Call(Asked::Write(b"k", b"a", &[]), Told::Wrote(b"k", 1), 1, 1),
    Step::Call(Asked::Write(b"k", b"b", &[]), Told::Wrote(b"k", 2), 2, 2),
    Step::Call(Asked::Look(&[(b"k", 1)]), Told::NotNow, 2, 2),
    Step::Call(Asked::Ship(2, 1), Told::Moved, 3, 1),
    Step::Call(Asked::Look(&[(b"k", 1)]), Told::Missing(0), 4, 1),
    Step::Whole(0, Some((1, 1))),
    Step::Call(Asked::Ship(1, 1), Told::Moved, 5, 0),
    Step::Whole(2, None),
];

#[test]
fn a_later_version_stands_for_an_earlier_one(rt: HostRuntime) {
    let alloc = rt.alloc();
    assert_steps(&rt, alloc, Kv::new(alloc, 0, &[0]), &LOOKED);
}
