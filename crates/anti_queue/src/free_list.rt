ghost use Rattle.std.specs.Prelude.{◌≡◌, ◌<◌, ◌≤◌, [], OnOk, slice_index};
ghost use Rattle.std.specs.VecDeque.{deque_len, deque_capacity};

use anti_ids::NoMemory;
use std::alloc::Global;
use std::collections::VecDeque;

/// The versions of the messages that are free for a subscription, ascending.
#[derive(Drop)]
pub(crate) struct FreeList {
    pub(crate) versions: VecDeque<u64>,
}

impl FreeList {
    ghost use Rattle.anti_queue.specs.inner.Splits.{SetsVersion};

    // No message is free.
    pub(crate) fn new(alloc: Global) -> FreeList
        ensures { result.versions.items ≡ [] }
    {
        FreeList {
            versions: VecDeque::new(alloc),
        }
    }

    // Makes room for so many versions in all.
    pub(crate) fn make_room(&mut self, versions: usize) -> Result<(), NoMemory>
        ensures items { self.new.versions.items ≡ self.old.versions.items }
        ensures room { OnOk result (versions ≤ deque_capacity self.new.versions) }
        ensures capacity { deque_capacity self.old.versions ≤ deque_capacity self.new.versions }
    {
        let more = versions.saturating_sub(self.versions.len());
        match self.versions.reserve(more) {
            Ok(()) => Ok(()),
            Err(_) => Err(NoMemory),
        }
    }

    // The first version, 0 where there is none.
    pub(crate) fn first(&self) -> u64
        ensures { result ≡ slice_index self.now.versions.items 0 }
    {
        match self.versions.front() {
            Some(version) => *version,
            None => 0,
        }
    }

    // Puts the version in at its place, or takes it out. It takes no memory.
    pub(crate) fn set(&mut self, version: u64, is_free: bool)
        requires { deque_len self.old.versions < deque_capacity self.old.versions }
        ensures items { SetsVersion self.old.versions.items version is_free self.new.versions.items }
        ensures capacity { deque_capacity self.old.versions ≤ deque_capacity self.new.versions }
    {
        match self.versions.binary_search(&version) {
            Ok(place) => {
                if !is_free {
                    let _ = self.versions.remove(place);
                }
            }
            Err(place) => {
                if is_free {
                    let _ = self.versions.insert(place, version);
                }
            }
        }
    }
}
