ghost use Rattle.std.specs.Prelude.{IfSome};
ghost use Rattle.anti_flight.specs.Tickets.{Holds};

use crate::made::{assert_of, assert_so};
use anti_flight::{Flight, Ticket};
use anti_ids::NoMemory;
use std::alloc::Global;
use std::sync::Wait;
use std::thread::{Threads, join};

// A list of letters, which of them leaves, counted from 0, the letter, and what is left.
struct Row {
    letters: &'static [u8],
    leaves: u32,
    letter: u8,
    left: &'static [u8],
}

static ROWS: [Row; 6] = [
    Row {
        letters: b"abc",
        leaves: 1,
        letter: b'b',
        left: b"ac",
    },
    Row {
        letters: b"abc",
        leaves: 0,
        letter: b'a',
        left: b"bc",
    },
    Row {
        letters: b"abc",
        leaves: 2,
        letter: b'c',
        left: b"ab",
    },
    Row {
        letters: b"ab",
        leaves: 0,
        letter: b'a',
        left: b"b",
    },
    Row {
        letters: b"a",
        leaves: 0,
        letter: b'a',
        left: b"",
    },
    Row {
        letters: b"aaaaa",
        leaves: 3,
        letter: b'a',
        left: b"aaaa",
    },
];

// The list of these letters. `None` where memory runs out, or they are more than a few.
fn filled(alloc: Global, letters: &[u8]) -> Option<Flight<u8>> {
    if letters.len() > 8 {
        return None;
    }
    let mut list = Flight::new(alloc);
    for letter in letters {
        let Ok(_) = list.push_back(*letter) else {
            return None;
        };
    }
    Some(list)
}

// The ticket at an index, counted from 0.
fn nth(list: &Flight<u8>, index: u32) -> Option<Ticket>
    ensures { IfSome result (λ ticket. Holds list.now.pairs ticket) }
{
    let mut at = list.front();
    for _ in 0..index {
        let Some(ticket) = at else { return None };
        at = list.after(&ticket);
    }
    at
}

// Whether the list has just these letters.
fn has(list: &Flight<u8>, letters: &[u8]) -> bool {
    let mut at = list.front();
    for letter in letters {
        let Some(ticket) = at else { return false };
        if *list.item(&ticket) != *letter {
            return false;
        }
        at = list.after(&ticket);
    }
    at.is_none() && list.len() as usize == letters.len()
}

// Whether a letter leaves a list as a row says, and its ticket with it.
fn leaves(mut list: Flight<u8>, row: &Row) -> bool {
    let Some(gone) = nth(&list, row.leaves) else {
        return false;
    };
    let before = has(&list, row.letters) && list.holds(&gone);
    let next = list.next();
    let letter = list.unlink(gone);
    before
        && has(&list, row.left)
        && !list.holds(&gone)
        && list.next() == next
        && letter == row.letter
}

// The same of the list of its letters. `false` where memory runs out, too.
fn is_left(alloc: Global, row: &Row) -> bool {
    match filled(alloc, row.letters) {
        Some(list) => leaves(list, row),
        None => false,
    }
}

#[test]
fn a_letter_leaves(rt: HostRuntime) {
    for row in &ROWS {
        assert_of(&rt, row.letters, is_left(rt.alloc(), row));
    }
}

// Whether each of these letters, which are not more than 32, is put in; or the first for which memory is refused comes back, and the list
// is as it was.
fn fills_or_keeps(alloc: Global, letters: &[u8]) -> bool {
    if letters.len() > 32 {
        return false;
    }
    let mut list = Flight::new(alloc);
    for index in 0..letters.len() {
        match list.push_back(letters[index]) {
            Ok(_) => {}
            Err((letter, NoMemory)) => {
                return letter == letters[index] && has(&list, &letters[..index]);
            }
        }
    }
    has(&list, letters)
}

#[test]
fn a_letter_without_memory_leaves_the_list(rt: HostRuntime) {
    assert_so(
        &rt,
        fills_or_keeps(rt.alloc(), b"abcdefghijklmnopqrstuvwxyz"),
    );
}

// Takes an item out, and lets the list go.
fn take_out<T: Drop>(mut list: Flight<T>, ticket: Ticket) -> T
    requires { Holds list.pairs ticket }
{
    list.unlink(ticket)
}

// The same in another thread, of any items that can be sent.
fn take_out_there<T: Send + Drop, R: Threads + Wait + Sync>(
    rt: &R,
    list: Flight<T>,
    ticket: Ticket,
) -> T
    requires { Holds list.pairs ticket }
{
    join(rt, || take_out(list, ticket), || ()).0
}

// Whether the letter in the middle leaves in another thread, where the list ends.
fn leaves_there<R: Threads + Wait + Sync + AllocGlobal>(rt: &R) -> bool {
    let Some(list) = filled(rt.alloc(), b"abc") else {
        return false;
    };
    let Some(ticket) = nth(&list, 1) else {
        return false;
    };
    take_out_there(rt, list, ticket) == b'b'
}

#[test]
fn a_letter_leaves_in_another_thread(rt: HostRuntime) {
    assert_so(&rt, leaves_there(&rt));
}
