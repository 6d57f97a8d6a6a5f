use crate::steps::{Asked, Step, Told, assert_steps};
use anti_table::Table;

// Two rows with one key and a third that names both, and a shipment that comes too early; then all are shipped.
static NAMED: [Step; 11] = [
    Step::Call(
        Asked::Write(b"row-b", b"1", &[]),
        Told::Wrote(b"row-b", 1),
        1,
        1,
    ),
    Step::Call(
        Asked::Write(b"row-b", b"2", &[(b"row-b", 1)]),
        Told::Kept(b"row-b", 2, &[]),
        2,
        2,
    ),
    Step::Call(
        Asked::Write(b"row-a", b"x", &[(b"row-b", 1), (b"row-b", 2)]),
        Told::Wrote(b"row-a", 3),
        3,
        3,
    ),
    Step::Call(Asked::Ship(3, 1), Told::NotNow, 3, 3),
    Step::Call(Asked::Ship(1, 1), Told::Moved, 4, 2),
    Step::Call(
        Asked::Scan(b"row"),
        Told::Rows(&[(b"row-b", 1, b"1")]),
        5,
        2,
    ),
    Step::Whole(1, Some((2, 1))),
    Step::Call(Asked::Ship(2, 1), Told::Moved, 6, 1),
    Step::Call(Asked::Ship(3, 1), Told::Moved, 7, 0),
    Step::Call(
        Asked::Scan(b"row"),
        Told::Rows(&[(b"row-a", 3, b"x"), (b"row-b", 2, b"2")]),
        9,
        0,
    ),
    Step::Whole(3, None),
];

#[test]
fn a_row_waits_for_those_that_it_names(rt: HostRuntime) {
    let alloc = rt.alloc();
    assert_steps(&rt, alloc, Table::new(alloc, 0, &[0]), &NAMED);
}
