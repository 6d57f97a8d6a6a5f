ghost use Rattle.std.specs.Prelude.{◌≡◌, ℕ, ◌<◌, ◌≤◌, List, Option, length, IfOk, IfSome, OnErr};
ghost use Rattle.anti_ids.specs.Counts.{Rose};
ghost use Rattle.anti_edge.specs.Outside.{IsFrontGiven, IsEnd, after_front};

use crate::failed::Failed;

/// Where bytes come from. It counts its faults, and tells what bytes are left where it knows them.
pub trait Source {
    ghost left: { Self → Option (List ℕ) };

    ghost faults: { Self → ℕ };

    /// Puts bytes at the front of `buf`, and answers how many. None for a `buf` that is not empty is the end.
    fn read(&mut self, buf: &mut [u8]) -> Result<usize, Failed>
        ensures within { IfOk result (λ n. n ≤ length buf.old) }
        ensures given { IfOk result (λ n. IfSome (left self.old) (IsFrontGiven n buf.new)) }
        ensures end { IfOk result (λ n. n ≡ 0 → 0 < length buf.old → IsEnd (left self.old)) }
        ensures rest { IfOk result (λ n. left self.new ≡ after_front n (left self.old)) }

        // A failure takes nothing of what is left, and is seen in the count, which never falls.
        ensures unread { OnErr result (left self.new ≡ left self.old) }
        ensures failed { OnErr result (Rose (faults self.old) (faults self.new)) }
        ensures count { faults self.old ≤ faults self.new };
}
