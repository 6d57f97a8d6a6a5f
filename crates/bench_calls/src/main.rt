//! Makes calls on shared key-value stores, by so many threads: a benchmark. `bench_calls 4 100` has four threads make 4,000 calls together
//! on one store, a hundred times, each time on a new store. A thread writes no key twice, so that what a write keeps stays short. It tells
//! how many calls were made. `bench_calls 4 100 50` asks besides, after every fourth call, fifty times how far the region has everything,
//! which takes no turn.
#![tactic(auto)]

ghost use Rattle.std.specs.Prelude.{◌≡◌, IfSome};

use anti_ids::{Lineage, Name, Value};
use anti_kind::{Actor, Answer, Call, Handle, Machine, Reply};
use anti_kv::Kv;
use anti_shared::{Pass, Shared};
use std::alloc::Global;
use std::process::ExitCode;
use std::rt::Env;
use std::sync::Wait;
use std::thread::{Threads, join};
use std::{env, str};

// How many calls are made on one store.
const CALLS: u32 = 4000;

// The version that a write made, which is then shipped.
fn version_of(answer: &Answer) -> u64 {
    match answer {
        Answer::Made {
            reply: Reply::Written { version, .. },
            ..
        } => *version,
        _ => 0,
    }
}

// Asks so often how far the region has everything.
fn ask<M: Machine>(shared: &Shared<M>, pass: &mut Pass<M>, questions: u32)
    requires { pass.old.id ≡ shared.now.id }
    ensures { pass.new.id ≡ shared.now.id }
{
    for _ in 0..questions {
        let _ = shared.upto(pass, 0);
    }
}

// The key of a turn: no other of some thousands has it.
fn key_of(turn: u32) -> Option<Name> {
    let letters = [
        b'a' + (turn / 676 % 26) as u8,
        b'a' + (turn / 26 % 26) as u8,
        b'a' + (turn % 26) as u8,
    ];
    Name::new(&letters).ok()
}

// Writes, ships what was written, reads twice, and asks questions, so often.
fn work<M: Machine, R: Wait + AllocGlobal>(
    rt: &R,
    shared: &Shared<M>,
    mut pass: Pass<M>,
    turns: u32,
    questions: u32,
) -> Pass<M>
    requires { pass.id ≡ shared.now.id }
    ensures { result.id ≡ pass.id }
{
    for turn in 0..turns {
        let Some(key) = key_of(turn) else {
            return pass;
        };
        let Some(call) = write_of(rt.alloc(), key) else {
            return pass;
        };
        let answer = shared.call(rt, &mut pass, Actor::Carrier(0), turn, 0, call);
        let ship = Call::Ship {
            region: 0,
            version: version_of(&answer),
            part: 1,
        };
        let _ = shared.call(rt, &mut pass, Actor::Carrier(0), turn, 0, ship);
        for _ in 0..2 {
            let read = Call::Read { region: 0, key };
            let _ = shared.call(rt, &mut pass, Actor::Carrier(0), turn, 0, read);
        }
        ask(shared, &mut pass, questions);
    }
    pass
}

// A write of the value `v` to a key, with the empty lineage.
fn write_of(alloc: Global, key: Name) -> Option<Call> {
    let value = Value::new(alloc, b"v").ok()?;
    let key = Handle::new(alloc, key).ok()?;
    let lineage = Handle::new(alloc, Lineage::root(alloc)).ok()?;
    Some(Call::Write {
        key,
        value,
        lineage,
    })
}

// A further pass, where there is room for one.
fn split<M: Machine>(shared: &Shared<M>, pass: &mut Pass<M>) -> Option<Pass<M>>
    requires { pass.old.id ≡ shared.now.id }
    ensures rest { pass.new.id ≡ shared.now.id }
    ensures new { IfSome result (λ pass. pass.id ≡ shared.now.id) }
{
    if pass.room() == 0 {
        return None;
    }
    shared.split(pass).ok()
}

// Two threads work. `None` where there is no room for a second pass.
fn work_two<M: Machine + Send, R: Threads + Wait + Sync + AllocGlobal>(
    rt: &R,
    shared: &Shared<M>,
    mut first: Pass<M>,
    turns: u32,
    questions: u32,
) -> Option<Pass<M>>
    requires { first.id ≡ shared.now.id }
    ensures { IfSome result (λ pass. pass.id ≡ shared.now.id) }
{
    let second = split(shared, &mut first)?;
    let (mut first, second) = join(
        rt,
        || work(rt, shared, first, turns, questions),
        || work(rt, shared, second, turns, questions),
    );
    shared.join(&mut first, second);
    Some(first)
}

// Twice two threads work.
fn work_four<M: Machine + Send, R: Threads + Wait + Sync + AllocGlobal>(
    rt: &R,
    shared: &Shared<M>,
    mut first: Pass<M>,
    turns: u32,
    questions: u32,
) -> Option<Pass<M>>
    requires { first.id ≡ shared.now.id }
    ensures { IfSome result (λ pass. pass.id ≡ shared.now.id) }
{
    let second = split(shared, &mut first)?;
    let (first, second) = join(
        rt,
        ||
            requires { first.id ≡ shared.now.id }
        { work_two(rt, shared, first, turns, questions) },
        ||
            requires { second.id ≡ shared.now.id }
        { work_two(rt, shared, second, turns, questions) },
    );
    let mut first = first?;
    shared.join(&mut first, second?);
    Some(first)
}

// So many threads, which are one, two or four, make all calls.
fn work_all<M: Machine + Send, R: Threads + Wait + Sync + AllocGlobal>(
    rt: &R,
    shared: &Shared<M>,
    first: Pass<M>,
    words: Words,
) -> Option<Pass<M>>
    requires { first.id ≡ shared.now.id }
    ensures { IfSome result (λ pass. pass.id ≡ shared.now.id) }
{
    let Words {
        threads,
        questions,
        rounds: _,
    } = words;
    match threads {
        1 => Some(work(rt, shared, first, CALLS / 4, questions)),
        2 => work_two(rt, shared, first, CALLS / 8, questions),
        _ => work_four(rt, shared, first, CALLS / 16, questions),
    }
}

// So many threads, which are one, two or four, make all calls on a new store. It gives how many were made.
fn round<R: Threads + Wait + Sync + AllocGlobal>(rt: &R, words: Words) -> Option<usize> {
    let store = Kv::new(rt.alloc(), 0, &[0]).ok()?;
    let (shared, first) = Shared::new(rt.alloc(), 0, store).ok()?;
    let pass = work_all(rt, &shared, first, words)?;
    let kept = shared.close(pass).ok()?;
    Some(kept.history().len())
}

// The words that the program is given.
#[derive(Clone, Copy)]
struct Words {
    threads: u32,
    rounds: u32,
    questions: u32,
}

// The number of threads and that of rounds, each 1 where it is not told, and that of questions, 0 where it is not told.
fn words_of<R: Env + AllocGlobal>(rt: &R) -> Option<Words> {
    let mut words = [1, 1, 0];
    for (place, argument) in env::args(rt).ok()?.skip(1).enumerate() {
        let number = str::from_utf8(argument.as_bytes())
            .ok()?
            .parse::<u32>()
            .ok()?;
        *words.get_mut(place)? = number;
    }
    let [threads, rounds, questions] = words;
    matches!(threads, 1 | 2 | 4).then_some(Words {
        threads,
        rounds,
        questions,
    })
}

fn main(rt: HostRuntime) -> ExitCode {
    let Some(words) = words_of(&rt) else {
        let _ = eprintln!(rt; "bench_calls THREADS ROUNDS QUESTIONS: the threads are 1, 2 or 4");
        return ExitCode::FAILURE;
    };
    let mut made: usize = 0;
    for _ in 0..words.rounds {
        match round(&rt, words) {
            Some(calls) => made = made.wrapping_add(calls),
            None => return ExitCode::FAILURE,
        }
    }
    let _ = println!(rt; "{made}");
    ExitCode::SUCCESS
}
