ghost use Rattle.std.specs.Prelude.{◌≡◌, replicate, IfOk};

use anti_ids::NoMemory;
use std::alloc::Global;

/// How far a subscription has come: how many cells it pulled, and the version of the last, 0 where it pulled none.
#[derive(Clone, Copy)]
pub(crate) struct PullCursor {
    pub(crate) count: u64,
    pub(crate) last: u64,
}

// The cursors of so many subscriptions that pulled nothing.
pub(crate) fn new_cursors(alloc: Global, count: usize) -> Result<Vec<PullCursor>, NoMemory>
    ensures { IfOk result (λ v. v.items ≡ replicate count (record { count = 0; last = 0 })) }
{
    match Vec::from_elem(alloc, PullCursor { count: 0, last: 0 }, count) {
        Ok(cursors) => Ok(cursors),
        Err(_) => Err(NoMemory),
    }
}
