ghost use Rattle.std.specs.Prelude.{◌≡◌, [], ◌<◌, ◌≤◌, length, min, IfOk, Some, OnErr, ◌&&◌, ◌||◌, ◌==◌, is_ok, not};
ghost use Rattle.anti_ids.specs.Counts.{Rose};
ghost use Rattle.anti_edge.specs.Outside.{with_front};
ghost use Rattle.anti_edge.specs.Plans.{is_listed, fresh_plan};
ghost use Rattle.anti_edge.specs.Memories.{after_piece};

use crate::failed::Failed;
use crate::plan::Plan;
use crate::sink::Sink;
use anti_ids::{Bytes, NoMemory};
use std::alloc::Global;
use std::marker::Model;

/// A sink that keeps what it takes in memory, takes it in small pieces, and fails where it is told to and where its room is
/// used up.
#[derive(Drop)]
pub struct MemorySink {
    bytes: Bytes,
    room: usize,
    plan: Plan,
}

impl Model for MemorySink {
    ghost use Rattle.std.specs.Prelude.{◌<◌, ◌≤◌};
    ghost use Rattle.anti_edge.specs.Memories.{Held};

    ghost Value = { Held };

    ghost view = { λ s. record { bytes = s.bytes.items; room = s.room; plan = s.plan } };

    ghost invariant = { λ s. (s.room ≤ s.bytes.spare) × (0 < s.plan.most) };
}

impl MemorySink {
    /// A sink with room for `room` bytes. One call takes at most `most` of them, which is 1 or more. `fail` has the numbers of the calls
    /// that fail; the first call is number 1.
    pub fn new(alloc: Global, room: u32, most: u32, fail: &[u32]) -> Result<MemorySink, NoMemory>
        requires { 0 < most }
        ensures bytes { IfOk result (λ s. s.bytes ≡ []) }
        ensures room { IfOk result (λ s. s.room ≡ room) }
        ensures plan { IfOk result (λ s. s.plan ≡ fresh_plan most fail.now) }
    {
        let plan = Plan::new(alloc, most, fail)?;
        let mut bytes = Bytes::new(alloc);
        bytes.reserve(room)?;
        Ok(MemorySink {
            bytes,
            room: room as usize,
            plan,
        })
    }

    /// What it took.
    pub fn bytes(&self) -> &[u8]
        ensures { result.now ≡ self.now.bytes }
    {
        self.bytes.bytes()
    }
}

impl Sink for MemorySink {
    ghost written = { λ s. Some s.bytes };

    ghost faults = { λ s. s.plan.faults };

    fn write(&mut self, piece: &[u8]) -> Result<usize, Failed>
        ensures within { IfOk result (λ n. n ≤ length piece.now) }
        ensures some { IfOk result (λ n. 0 < length piece.now → 0 < n) }
        ensures taken { IfOk result (λ n. Some self.new.bytes ≡ with_front n piece.now (Some self.old.bytes)) }
        ensures untaken { OnErr result (Some self.new.bytes ≡ Some self.old.bytes) }
        ensures failed { OnErr result (Rose self.old.plan.faults self.new.plan.faults) }
        ensures count { self.old.plan.faults ≤ self.new.plan.faults }

        // What the plan and the room say of this call.
        ensures fails { is_ok result ≡ not (is_listed self.old.plan) && (not (self.old.room == 0) || (length piece.now == 0)) }
        ensures most { IfOk result (λ n. n ≡ min self.old.plan.most (min (length piece.now) self.old.room)) }
        ensures after { self.new ≡ after_piece piece.now self.old }
    {
        self.plan.begin()?;
        let most = self.plan.most as usize;
        let count = most.min(piece.len().min(self.room));
        if count == 0 && !piece.is_empty() {
            self.plan.fault();
            return Err(Failed);
        }
        let front = piece.split_at(count).0;
        match self.bytes.append(front) {
            Ok(()) => {}
            // the type keeps space for as many as there is room for
            Err(NoMemory) => unreachable!(),
        }
        self.room -= count;
        Ok(count)
    }
}
