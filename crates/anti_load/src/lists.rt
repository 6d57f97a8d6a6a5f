ghost use Rattle.std.specs.Prelude.{◌≡◌, [], ◌∷◌, IfOk};
ghost use Rattle.anti_ids.specs.List.{plain};

use anti_ids::{List, NoMemory};
use std::alloc::Global;

/// The list of one item.
pub fn one<T: Drop>(alloc: Global, item: T) -> Result<List<T>, NoMemory>
    ensures { IfOk result (λ list. list ≡ plain (item ∷ [])) }
{
    let mut list = List::new(alloc);
    list.add(item)?;
    Ok(list)
}

/// The list of two items.
pub fn two<T: Drop>(alloc: Global, first: T, second: T) -> Result<List<T>, NoMemory>
    ensures { IfOk result (λ list. list ≡ plain (first ∷ second ∷ [])) }
{
    let mut list = List::new(alloc);
    list.add(first)?;
    list.add(second)?;
    Ok(list)
}
