ghost use Rattle.std.specs.Prelude.{◌≡◌, option_map, slice_get};

use anti_ids::NoMemory;
use std::alloc::Global;

/// The item of a list at an index, where it is within.
pub fn item_at<T>(items: &[T], index: usize) -> Option<&T>
    ensures { option_map (λ item. item.now) result ≡ slice_get items.now index }
{
    items.get(index)
}

/// So many empty lists.
pub fn empty_lists<T: Drop>(alloc: Global, count: usize) -> Result<Vec<Vec<T>>, NoMemory> {
    let mut lists = Vec::with_capacity(alloc, count)?;
    for _ in 0..count {
        lists.push(Vec::new(alloc))?;
    }
    Ok(lists)
}

/// How many items stand in lists.
pub fn item_count<T>(lists: &[Vec<T>]) -> usize {
    let mut count = 0_usize;
    for list in lists {
        count = count.saturating_add(list.len());
    }
    count
}
