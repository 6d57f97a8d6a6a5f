ghost use Rattle.std.specs.Prelude.{◌≡◌, ◌+◌, ◌≤◌, [], length, vec_capacity, IfOk};

use crate::memory::NoMemory;
use std::alloc::Global;

/// A value of which another can be made.
pub trait Copies: Drop {
    /// An equal value, on the memory of `alloc`.
    fn copy(&self, alloc: Global) -> Result<Self, NoMemory>
        ensures { IfOk result (λ v. v ≡ self.now) };

    /// Equal values, in a list with room for `more` further ones.
    fn copy_all(items: &[Self], more: usize, alloc: Global) -> Result<Vec<Self>, NoMemory>
        ensures items { IfOk result (λ v. v.items ≡ items.now) }
        ensures room { IfOk result (λ v. length items.now + more ≤ vec_capacity v) }
    {
        let mut again = room_for(items.len(), more, alloc)?;
        for item in items {
            again.push_reserved(item.copy(alloc)?);
        }
        Ok(again)
    }
}

// An empty list with room for these and more items.
pub(crate) fn room_for<T>(count: usize, more: usize, alloc: Global) -> Result<Vec<T>, NoMemory>
    ensures items { IfOk result (λ v. v.items ≡ []) }
    ensures room { IfOk result (λ v. count + more ≤ vec_capacity v) }
{
    let Some(room) = count.checked_add(more) else {
        return Err(NoMemory);
    };
    match Vec::with_capacity(alloc, room) {
        Ok(items) => Ok(items),
        Err(_) => Err(NoMemory),
    }
}

impl Copies for u8 {
    fn copy(&self, _alloc: Global) -> Result<u8, NoMemory> {
        Ok(*self)
    }

    // Bytes are copied as bytes, all at once.
    fn copy_all(items: &[u8], more: usize, alloc: Global) -> Result<Vec<u8>, NoMemory> {
        let mut again = room_for(items.len(), more, alloc)?;
        match again.extend_from_slice(items) {
            Ok(()) => Ok(again),
            Err(_) => Err(NoMemory),
        }
    }
}

impl Copies for u32 {
    fn copy(&self, _alloc: Global) -> Result<u32, NoMemory> {
        Ok(*self)
    }
}

impl Copies for u64 {
    fn copy(&self, _alloc: Global) -> Result<u64, NoMemory> {
        Ok(*self)
    }
}

impl Copies for bool {
    fn copy(&self, _alloc: Global) -> Result<bool, NoMemory> {
        Ok(*self)
    }
}
