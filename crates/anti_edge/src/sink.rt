ghost use Rattle.std.specs.Prelude.{◌≡◌, ℕ, ◌<◌, ◌≤◌, List, Option, length, IfOk, OnErr};
ghost use Rattle.anti_ids.specs.Counts.{Rose};
ghost use Rattle.anti_edge.specs.Outside.{with_front};

use crate::failed::Failed;

/// Where bytes go. It counts its faults, and tells what was written where it keeps it.
pub trait Sink {
    ghost written: { Self → Option (List ℕ) };

    ghost faults: { Self → ℕ };

    /// Takes bytes of the front of `piece`, and answers how many: at least one where there is one.
    fn write(&mut self, piece: &[u8]) -> Result<usize, Failed>
        ensures within { IfOk result (λ n. n ≤ length piece.now) }
        ensures some { IfOk result (λ n. 0 < length piece.now → 0 < n) }
        ensures taken { IfOk result (λ n. written self.new ≡ with_front n piece.now (written self.old)) }

        // A failure takes nothing of the piece, and is seen in the count, which never falls.
        ensures untaken { OnErr result (written self.new ≡ written self.old) }
        ensures failed { OnErr result (Rose (faults self.old) (faults self.new)) }
        ensures count { faults self.old ≤ faults self.new };
}
