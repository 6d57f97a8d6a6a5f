// Runs by workers: they meet, so that no one thread does all, and they make calls of their own.

use crate::call_rows::{assert_at, assert_so};
use crate::past::WHOLE;
use anti_command::{Outcome, antipode};
use anti_edge::{SureSink, SureSource};
use anti_ids::Value;
use anti_kind::Call;
use anti_trace::Trace;
use anti_work::{Gate, Open};
use std::sync::Wait;
use std::sync::atomic::{AtomicU64, Ordering};
use std::thread;
use std::thread::Threads;

// How many turns a worker waits for the other, at most.
const MOST_TURNS: u32 = 1_000_000;

// In how many rounds they meet.
const MEETINGS: u64 = 2;

// A gate at which workers 1 and 2 wait for each other in their first rounds: where each of them has come to, and how often one waited in
// vain.
#[derive(Drop)]
struct Meeting {
    first: AtomicU64,
    second: AtomicU64,
    missed: AtomicU64,
}

// Tells that a worker has come to a round, and waits until the other has. It tells whether they met.
fn meets(own: &AtomicU64, other: &AtomicU64, round: u64) -> bool {
    own.store(round, Ordering::SeqCst);
    for _ in 0..MOST_TURNS {
        if other.load(Ordering::SeqCst) >= round {
            return true;
        }
        thread::yield_now();
    }
    false
}

impl Gate for Meeting {
    fn pass(&self, worker: u32, round: u64) {
        if round > MEETINGS {
            return;
        }
        let met = match worker {
            1 => meets(&self.first, &self.second, round),
            2 => meets(&self.second, &self.first, round),
            _ => true,
        };
        if !met {
            self.missed.store(1, Ordering::SeqCst);
        }
    }
}

// What a call with a word comes to on a document. `None` where memory runs out before it.
fn call_of<R: Threads + Wait + Sync + AllocGlobal, G: Gate + Sync>(
    rt: &R,
    word: &[u8],
    document: &str,
    gate: &G,
) -> Option<Outcome> {
    let alloc = rt.alloc();
    let Ok(word) = Value::new(alloc, word) else {
        return None;
    };
    let Ok(mut src) = SureSource::new(alloc, document.as_bytes()) else {
        return None;
    };
    let mut out = SureSink::new();
    let mut err = SureSink::new();
    Some(antipode(rt, alloc, &[word], &mut src, &mut out, &mut err, gate))
}

// Whether a worker took a delivery to the service that is this one behind the stores.
fn has_taken(trace: &Trace, object: u32) -> bool {
    for entry in trace.as_slice() {
        let taken = matches!(entry.call, Call::Take { .. });
        if entry.object == object && taken && entry.seat > 0 {
            return true;
        }
    }
    false
}

// The objects of the whole application that are the inboxes of `front` and `admin`. Worker 1 has the one, and worker 2 the other.
const FRONT: u32 = 5;

const ADMIN: u32 = 10;

// Whether the call wrote a run in which both workers took deliveries.
fn both_worked(outcome: Option<Outcome>) -> bool {
    match outcome {
        Some(
            Outcome {
                status,
                kept: Some(kept),
                ..
            },
        ) => status == 0 && has_taken(&kept.trace, FRONT) && has_taken(&kept.trace, ADMIN),
        _ => false,
    }
}

// Whether both workers work and meet in their first rounds, and none waits in vain.
fn both_meet<R: Threads + Wait + Sync + AllocGlobal>(rt: &R) -> bool {
    let gate = Meeting {
        first: AtomicU64::new(0),
        second: AtomicU64::new(0),
        missed: AtomicU64::new(0),
    };
    both_worked(call_of(rt, b"run", WHOLE, &gate)) && gate.missed.load(Ordering::SeqCst) == 0
}

#[test]
fn two_workers_meet_in_two_rounds(rt: HostRuntime) {
    assert_so(&rt, both_meet(&rt));
}

#[test]
fn workers_play_a_document(rt: HostRuntime) {
    assert_so(&rt, both_worked(call_of(&rt, b"run", WHOLE, &Open)));
}

// Words, documents, and the statuses that calls with threads at hand end with.
static CALLS: [(&[u8], &str, u8); 4] = [
    (b"step", WHOLE, 0),
    (b"run", "regions = 7", 5),
    (b"run", "regions", 5),
    (b"runs", WHOLE, 2),
];

// Whether a call ends with a status.
fn ends_with(outcome: Option<Outcome>, status: u8) -> bool {
    match outcome {
        Some(outcome) => outcome.status == status,
        None => false,
    }
}

#[test]
fn a_call_with_threads_answers_each_word(rt: HostRuntime) {
    for (place, (word, document, status)) in CALLS.iter().enumerate() {
        let outcome = call_of(&rt, word, document, &Open);
        assert_at(&rt, place, ends_with(outcome, *status));
    }
}
