use crate::steps::{Asked, Step, Told, assert_steps};
use anti_blob::Blob;

// A value of four parts.
const LONG: &[u8] = &[b'v'; 200];

// A write of four parts, which are shipped one after another.
static PARTS: [Step; 13] = [
    Step::Call(Asked::Write(b"m", LONG, &[]), Told::Needs(5), 0, 0),
    Step::Call(Asked::Write(b"m", LONG, &[]), Told::Wrote(b"m", 1), 1, 4),
    Step::Call(Asked::Ship(1, 5), Told::NotNow, 1, 4),
    Step::Call(Asked::Ship(1, 4), Told::Moved, 2, 3),
    Step::Call(Asked::Read(b"m"), Told::Rows(&[(b"m", 0, b"")]), 3, 3),
    Step::Call(Asked::Ship(1, 1), Told::Moved, 4, 2),
    Step::Call(Asked::Read(b"m"), Told::Rows(&[(b"m", 0, b"")]), 5, 2),
    Step::Call(Asked::Ship(1, 3), Told::Moved, 6, 1),
    Step::Call(Asked::Read(b"m"), Told::Rows(&[(b"m", 0, b"")]), 7, 1),
    Step::Whole(0, Some((1, 2))),
    Step::Call(Asked::Ship(1, 2), Told::Moved, 8, 0),
    Step::Call(Asked::Read(b"m"), Told::Rows(&[(b"m", 1, LONG)]), 9, 0),
    Step::Whole(1, None),
];

#[test]
fn a_value_shows_with_its_last_part(rt: HostRuntime) {
    let alloc = rt.alloc();
    assert_steps(&rt, alloc, Blob::new(alloc, 0, &[0]), &PARTS);
}

// Values of 0, 64, 65 and 256 bytes. Their writes need a unit, and one more for each part.
static SIZES: [Step; 4] = [
    Step::Call(Asked::Write(b"m", b"", &[]), Told::Needs(2), 0, 0),
    Step::Call(Asked::Write(b"m", &[b'v'; 64], &[]), Told::Needs(2), 0, 0),
    Step::Call(Asked::Write(b"m", &[b'v'; 65], &[]), Told::Needs(3), 0, 0),
    Step::Call(Asked::Write(b"m", &[b'v'; 256], &[]), Told::Needs(5), 0, 0),
];

#[test]
fn a_part_has_64_bytes(rt: HostRuntime) {
    let alloc = rt.alloc();
    assert_steps(&rt, alloc, Blob::new(alloc, 0, &[0]), &SIZES);
}
