use crate::steps::{Asked, Step, Told, assert_steps};
use anti_cache::CachedKv;

// A cache of one key. It goes on to show the first version that was read, and a look waits for it, until the second comes again. The next
// key puts the first one out.
static STALE: [Step; 13] = [
    Step::Call(Asked::Write(b"k", b"a", &[]), Told::Wrote(b"k", 1), 1, 1),
    Step::Call(Asked::Ship(1, 1), Told::Moved, 2, 0),
    Step::Call(Asked::Read(b"k"), Told::Rows(&[(b"k", 1, b"a")]), 3, 0),
    Step::Call(Asked::Write(b"k", b"b", &[]), Told::Wrote(b"k", 2), 4, 1),
    Step::Call(Asked::Ship(2, 1), Told::Moved, 5, 0),
    Step::Call(Asked::Read(b"k"), Told::Rows(&[(b"k", 1, b"a")]), 6, 0),
    Step::Call(Asked::Look(&[(b"k", 2)]), Told::NotNow, 6, 0),
    Step::Call(Asked::Again(2, 1), Told::Moved, 7, 0),
    Step::Call(Asked::Read(b"k"), Told::Rows(&[(b"k", 2, b"b")]), 8, 0),
    Step::Call(Asked::Write(b"j", b"c", &[]), Told::Wrote(b"j", 3), 9, 1),
    Step::Call(Asked::Ship(3, 1), Told::Moved, 10, 0),
    Step::Call(Asked::Read(b"j"), Told::Rows(&[(b"j", 3, b"c")]), 11, 0),
    Step::Whole(3, None),
];

#[test]
fn a_cache_shows_what_was_read_until_it_comes_again(rt: HostRuntime) {
    let alloc = rt.alloc();
    assert_steps(&rt, alloc, CachedKv::new(alloc, 0, &[0], 1), &STALE);
}

// A cache of two keys, of which the last that was read stays. A look of what fell out finds what is whole.
static FALLS_OUT: [Step; 15] = [
    Step::Call(Asked::Write(b"a", b"1", &[]), Told::Wrote(b"a", 1), 1, 1),
    Step::Call(Asked::Write(b"b", b"1", &[]), Told::Wrote(b"b", 2), 2, 2),
    Step::Call(Asked::Write(b"c", b"1", &[]), Told::Wrote(b"c", 3), 3, 3),
    Step::Call(Asked::Ship(1, 1), Told::Moved, 4, 2),
    Step::Call(Asked::Ship(2, 1), Told::Moved, 5, 1),
    Step::Call(Asked::Read(b"a"), Told::Rows(&[(b"a", 1, b"1")]), 6, 1),
    Step::Call(Asked::Read(b"b"), Told::Rows(&[(b"b", 2, b"1")]), 7, 1),
    Step::Call(Asked::Read(b"a"), Told::Rows(&[(b"a", 1, b"1")]), 8, 1),
    // nothing of it is whole, so it comes into no cache
    Step::Call(Asked::Read(b"c"), Told::Rows(&[(b"c", 0, b"")]), 9, 1),
    Step::Call(Asked::Ship(3, 1), Told::Moved, 10, 0),
    Step::Call(Asked::Read(b"c"), Told::Rows(&[(b"c", 3, b"1")]), 11, 0),
    // so b fell out, which was read before a was read again
    Step::Call(Asked::Write(b"b", b"2", &[]), Told::Wrote(b"b", 4), 12, 1),
    Step::Call(Asked::Ship(4, 1), Told::Moved, 13, 0),
    Step::Call(Asked::Look(&[(b"b", 4)]), Told::Missing(0), 14, 0),
    Step::Call(Asked::Read(b"b"), Told::Rows(&[(b"b", 4, b"2")]), 15, 0),
];

#[test]
fn the_key_that_was_read_longest_ago_falls_out(rt: HostRuntime) {
    let alloc = rt.alloc();
    assert_steps(&rt, alloc, CachedKv::new(alloc, 0, &[0], 2), &FALLS_OUT);
}
