ghost use Rattle.std.specs.Prelude.{◌≡◌, IfOk, reverse};

use anti_ids::{List, NoMemory};
use std::alloc::Global;

/// The items of a list, the last one first: `pop` then gives them in their order.
pub fn turned<T: Drop>(alloc: Global, mut list: List<T>) -> Result<List<T>, NoMemory>
    ensures { IfOk result (λ turned. turned.items ≡ reverse list.items) }
{
    let mut turned = List::with_room_of(alloc, &list)?;
    while let Some(item) = list.pop() {
        turned.put(item);
    }
    Ok(turned)
}
