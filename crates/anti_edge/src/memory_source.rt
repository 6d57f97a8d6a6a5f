ghost use Rattle.std.specs.Prelude.{◌≡◌, ◌<◌, ◌≤◌, length, min, Some, IfOk, OnErr, is_ok, not};
ghost use Rattle.anti_ids.specs.Counts.{Rose};
ghost use Rattle.anti_edge.specs.Outside.{IsFrontGiven, IsEnd, after_front};
ghost use Rattle.anti_edge.specs.Plans.{is_listed, after_call, fresh_plan};

use crate::failed::Failed;
use crate::give::give;
use crate::plan::Plan;
use crate::source::Source;
use anti_ids::{Bytes, NoMemory};
use std::alloc::Global;
use std::marker::Model;

/// A source over bytes in memory, which gives them in small pieces and fails where it is told to.
#[derive(Drop)]
pub struct MemorySource {
    bytes: Bytes,
    at: usize,
    plan: Plan,
}

impl Model for MemorySource {
    ghost use Rattle.std.specs.Prelude.{◌<◌, ◌≤◌, drop, length};
    ghost use Rattle.anti_edge.specs.Memories.{Told};

    ghost Value = { Told };

    ghost view = { λ s. record { left = drop s.at s.bytes.items; plan = s.plan } };

    ghost invariant = { λ s. (s.at ≤ length s.bytes.items) × (0 < s.plan.most) };
}

impl MemorySource {
    /// A source of these bytes. One call gives at most `most` of them, which is 1 or more. `fail` has the numbers of the calls that
    /// fail; the first call is number 1.
    pub fn new(
        alloc: Global,
        bytes: &[u8],
        most: u32,
        fail: &[u32],
    ) -> Result<MemorySource, NoMemory>
        requires { 0 < most }
        ensures left { IfOk result (λ s. s.left ≡ bytes.now) }
        ensures plan { IfOk result (λ s. s.plan ≡ fresh_plan most fail.now) }
    {
        let plan = Plan::new(alloc, most, fail)?;
        let mut kept = Bytes::new(alloc);
        kept.append(bytes)?;
        Ok(MemorySource {
            bytes: kept,
            at: 0,
            plan,
        })
    }
}

impl Source for MemorySource {
    ghost left = { λ s. Some s.left };

    ghost faults = { λ s. s.plan.faults };

    fn read(&mut self, buf: &mut [u8]) -> Result<usize, Failed>
        ensures within { IfOk result (λ n. n ≤ length buf.old) }
        ensures given { IfOk result (λ n. IsFrontGiven n buf.new self.old.left) }
        ensures end { IfOk result (λ n. n ≡ 0 → 0 < length buf.old → IsEnd (Some self.old.left)) }
        ensures rest { IfOk result (λ n. Some self.new.left ≡ after_front n (Some self.old.left)) }
        ensures unread { OnErr result (Some self.new.left ≡ Some self.old.left) }
        ensures failed { OnErr result (Rose self.old.plan.faults self.new.plan.faults) }
        ensures count { self.old.plan.faults ≤ self.new.plan.faults }

        // What the plan says of this call.
        ensures fails { is_ok result ≡ not (is_listed self.old.plan) }
        ensures most { IfOk result (λ n. n ≡ min self.old.plan.most (min (length self.old.left) (length buf.old))) }
        ensures plan { self.new.plan ≡ after_call self.old.plan }
    {
        self.plan.begin()?;
        let left = self.bytes.bytes().split_at(self.at).1;
        let count = give(left, self.plan.most as usize, buf);
        self.at += count;
        Ok(count)
    }
}
