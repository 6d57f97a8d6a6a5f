ghost use Rattle.std.specs.Prelude.{◌≡◌, ◌<◌, false, length, IfSome};
ghost use Rattle.anti_turn.specs.Lists.{Adds};
ghost use Rattle.anti_turn.specs.inner.Tallies.{longer};

use crate::made::assert_so;
use anti_turn::{Listed, Seat, Turn};
use std::alloc::Global;
use std::sync::Wait;
use std::thread::{Threads, join};

// How many entries each thread adds.
const TIMES: usize = 100;

// A value whose entries are the numbers of the seats that added them.
#[derive(Drop)]
struct Numbers {
    // It never changes.
    name: u32,
    entries: Vec<u32>,
}

impl Listed for Numbers {
    type Entry = u32;

    type Fixed = u32;

    ghost list = { λ numbers. numbers.entries.items };

    ghost by = { λ number. number };

    ghost fixed = { λ numbers. numbers.name };

    // Each mark is how many entries there are.
    ghost mark = { λ part word entries. length entries };

    ghost rises = { λ part word entries more. longer entries more };
}

// A value that a thread may add an entry to.
trait Grows: Listed {
    // Adds an entry of this number, where there is memory.
    fn grow(&mut self, number: u32)
        ensures adds { Adds Self.by number (Self.list self.old) (Self.list self.new) }
        ensures fixed { Self.fixed self.new ≡ Self.fixed self.old };
}

impl Grows for Numbers {
    fn grow(&mut self, number: u32) {
        let _ = self.entries.push(number);
    }
}

// A turn round the value 7 with no entry, and its first seat. `None` where memory runs out.
fn first_seat(alloc: Global) -> Option<(Turn<Numbers>, Seat<Numbers>)>
    ensures of { IfSome result (λ made. made.1.id ≡ made.0.id) }
    ensures free { IfSome result (λ made. made.1.holds ≡ false) }
    ensures room { IfSome result (λ made. 0 < made.1.room) }
{
    let numbers = Numbers {
        name: 7,
        entries: Vec::new(alloc),
    };
    match Turn::new(alloc, numbers) {
        Ok(made) => Some(made),
        Err(_) => None,
    }
}

// Whether a seat has this number and this room.
fn has(seat: &Seat<Numbers>, number: u32, room: u64) -> bool {
    seat.number() == number && seat.room() == room
}

// Whether a first seat is alone but while a second is out, and what numbers and room both have.
fn is_alone_but_while_a_second_is_out(alloc: Global) -> bool {
    let Some((turn, mut first)) = first_seat(alloc) else {
        return false;
    };
    let before = turn.alone(&mut first) && has(&first, 1, 4_294_967_294);
    let Ok(second) = turn.split(&mut first) else {
        // by `never_err` of `split`
        unreachable!()
    };
    let between = !turn.alone(&mut first)
        && has(&first, 1, 2_147_483_647)
        && has(&second, 2, 2_147_483_646);
    let Err((turn, mut first)) = turn.close(first) else {
        return false;
    };
    turn.join(&mut first, second);
    let behind = turn.alone(&mut first) && has(&first, 1, 4_294_967_293);
    let Ok(numbers) = turn.close(first) else {
        return false;
    };
    before && between && behind && numbers.name == 7 && numbers.entries.is_empty()
}

#[test]
fn a_seat_is_alone_but_while_a_second_is_out(rt: HostRuntime) {
    assert_so(&rt, is_alone_but_while_a_second_is_out(rt.alloc()));
}

// Which mark the seats raise and load, and another.
const MARK: u32 = 3;

const OTHER: u32 = 4;

// Adds two entries in one turn, and tells how many there are then.
fn add_two<R: Wait>(rt: &R, turn: &Turn<Numbers>, seat: &mut Seat<Numbers>) -> usize
    requires turn { seat.old.id ≡ turn.now.id }
    requires free { seat.old.holds ≡ false }
    ensures id { seat.new.id ≡ seat.old.id }
    ensures seen { result ≡ length seat.new.seen }
{
    let number = seat.number();
    let mut held = turn.enter(rt, seat);
    held.value.grow(number);
    held.value.grow(number);
    let count = held.value.entries.len();
    turn.leave(seat, held);
    count
}

// What a seat that never enters loads of a mark: before another seat raises it, after that, and after it is raised to less. Then what it
// loads of another mark.
fn loaded_without_the_turn<R: Wait + AllocGlobal>(rt: &R) -> Option<[u64; 4]> {
    let (turn, mut first) = first_seat(rt.alloc())?;
    let Ok(mut second) = turn.split(&mut first) else {
        // by `never_err` of `split`
        unreachable!()
    };
    let before = turn.load(&mut second, MARK);
    let count = add_two(rt, &turn, &mut first);
    turn.raise(&mut first, MARK, count as u64);
    let raised = turn.load(&mut second, MARK);
    turn.raise(&mut first, MARK, 0);
    let still = turn.load(&mut second, MARK);
    let other = turn.load(&mut second, OTHER);
    Some([before, raised, still, other])
}

#[test]
fn a_mark_is_seen_without_the_turn(rt: HostRuntime) {
    assert_so(&rt, loaded_without_the_turn(&rt) == Some([0, 2, 2, 0]));
}

// Takes the turn and gives it back, then adds entries, each in a turn of its own.
fn work<T: Grows, R: Wait>(rt: &R, turn: &Turn<T>, mut seat: Seat<T>) -> Seat<T>
    requires { (seat.id ≡ turn.now.id) × (seat.holds ≡ false) }
    ensures { (result.id ≡ seat.id) × (result.holds ≡ false) }
{
    let held = turn.enter(rt, &mut seat);
    turn.leave(&mut seat, held);
    for _ in 0..TIMES {
        let mut held = turn.enter(rt, &mut seat);
        held.value.grow(seat.number());
        turn.leave(&mut seat, held);
    }
    seat
}

// Two threads take turns round any value that can be sent.
fn work_both<T: Grows + Send, R: Threads + Wait + Sync>(
    rt: &R,
    turn: &Turn<T>,
    first: Seat<T>,
    second: Seat<T>,
) -> (Seat<T>, Seat<T>)
    requires first { (first.id ≡ turn.now.id) × (first.holds ≡ false) }
    requires second { (second.id ≡ turn.now.id) × (second.holds ≡ false) }
    ensures first { (result.0.id ≡ turn.now.id) × (result.0.holds ≡ false) }
    ensures second { (result.1.id ≡ turn.now.id) × (result.1.holds ≡ false) }
{
    join(rt, || work(rt, turn, first), || work(rt, turn, second))
}

// How many of the entries have a number.
fn count(entries: &[u32], number: u32) -> usize {
    let mut found: usize = 0;
    for entry in entries {
        if *entry == number {
            found = found.saturating_add(1);
        }
    }
    found
}

// Whether two threads add their entries, each under the number of its seat.
fn both_add<R: Threads + Wait + Sync + AllocGlobal>(rt: &R) -> bool {
    let Some((turn, mut first)) = first_seat(rt.alloc()) else {
        return false;
    };
    let Ok(second) = turn.split(&mut first) else {
        // by `never_err` of `split`
        unreachable!()
    };
    let (mut first, second) = work_both(rt, &turn, first, second);
    turn.join(&mut first, second);
    let Ok(numbers) = turn.close(first) else {
        return false;
    };
    let entries = numbers.entries.as_slice();
    entries.len() == 2 * TIMES && count(entries, 1) == TIMES && count(entries, 2) == TIMES
}

#[test]
fn two_threads_add_under_their_own_numbers(rt: HostRuntime) {
    assert_so(&rt, both_add(&rt));
}
