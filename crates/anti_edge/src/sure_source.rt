ghost use Rattle.std.specs.Prelude.{◌≡◌, ◌<◌, ◌≤◌, length, min, Some, IfOk, OnErr, IsOkAnd};
ghost use Rattle.anti_ids.specs.Counts.{Rose};
ghost use Rattle.anti_edge.specs.Outside.{IsFrontGiven, IsEnd, after_front};

use crate::failed::Failed;
use crate::give::give;
use crate::source::Source;
use anti_ids::{Bytes, NoMemory};
use std::alloc::Global;
use std::marker::Model;

/// A source over bytes in memory that never fails. Contracts see the bytes that are left.
#[derive(Drop)]
pub struct SureSource {
    bytes: Bytes,
    at: usize,
}

impl Model for SureSource {
    ghost use Rattle.std.specs.Prelude.{ℕ, List, ◌≤◌, drop, length};

    ghost Value = { List ℕ };

    ghost view = { λ s. drop s.at s.bytes.items };

    ghost invariant = { λ s. s.at ≤ length s.bytes.items };
}

impl SureSource {
    /// A source of these bytes.
    pub fn new(alloc: Global, bytes: &[u8]) -> Result<SureSource, NoMemory>
        ensures { IfOk result (λ s. s ≡ bytes.now) }
    {
        let mut kept = Bytes::new(alloc);
        kept.append(bytes)?;
        Ok(SureSource { bytes: kept, at: 0 })
    }
}

impl Source for SureSource {
    ghost left = { λ s. Some s };

    ghost faults = { λ _. 0 };

    fn read(&mut self, buf: &mut [u8]) -> Result<usize, Failed>
        ensures within { IfOk result (λ n. n ≤ length buf.old) }
        ensures given { IfOk result (λ n. IsFrontGiven n buf.new self.old) }
        ensures end { IfOk result (λ n. n ≡ 0 → 0 < length buf.old → IsEnd (Some self.old)) }
        ensures rest { IfOk result (λ n. Some self.new ≡ after_front n (Some self.old)) }
        ensures unread { OnErr result (Some self.new ≡ Some self.old) }
        ensures failed { OnErr result (Rose 0 0) }
        ensures count { 0 ≤ 0 }

        // It gives all that is left and finds place.
        ensures sure { IsOkAnd result (λ n. n ≡ min (length self.old) (length buf.old)) }
    {
        let left = self.bytes.bytes().split_at(self.at).1;
        let count = give(left, usize::MAX, buf);
        self.at += count;
        Ok(count)
    }
}
