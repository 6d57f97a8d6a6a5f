// Ids in ascending order, as lineages keep them.
ghost use Rattle.std.specs.Prelude.{◌≡◌, ◌↔◌, ◌+◌, ◌<◌, ◌≤◌, ◌∷◌, ◌++◌, length, take, drop, vec_len, vec_capacity, IsTrue};
ghost use Rattle.std.specs.declared.cmp.Ordering.TheVariants.{Less};
ghost use Rattle.anti_ids.specs.Each.{Each};
ghost use Rattle.anti_ids.specs.Invariants.{IsAscending, IsLineage};
ghost use Rattle.anti_ids.specs.Ids.{has_id, id_cmp, with_ids};
ghost use Rattle.anti_ids.specs.inner.Places.{IsPlace};

use crate::id::WriteId;
use crate::ids::Ids;

// Whether an id goes behind all others.
fn goes_last(ids: &[WriteId], id: &WriteId) -> bool
    requires { IsAscending ids.now }
    ensures { IsTrue result ↔ Each (λ other. id_cmp other id.now ≡ Less) ids.now }
{
    match ids.last() {
        Some(last) => last.cmp(id).is_lt(),
        None => true,
    }
}

// Where an id stands, or where it goes as it is not there. An id that goes last costs one comparison.
pub(crate) fn place_of(ids: &[WriteId], id: &WriteId) -> Result<usize, usize>
    requires { IsAscending ids.now }
    ensures { IsPlace id.now ids.now result }
{
    if goes_last(ids, id) {
        return Err(ids.len());
    }
    ids.binary_search(id)
}

// Whether an id is among the others.
pub(crate) fn is_among(ids: &[WriteId], id: &WriteId) -> bool
    requires { IsAscending ids.now }
    ensures { result ≡ has_id id.now ids.now }
{
    place_of(ids, id).is_ok()
}

// How many of the further ids are not among the ids.
pub(crate) fn count_new(ids: &[WriteId], further: Ids) -> usize
    requires ids { IsAscending ids.now }
    requires further { IsLineage further }
    ensures { length ids.now + result ≡ length (with_ids further.entry ids.now) }
{
    let mut count = 0;
    for id in further {
        if !is_among(ids, id) {
            count += 1;
        }
    }
    count
}

// Puts an id at an index of ids that have room for it.
pub(crate) fn put_at(ids: &mut Vec<WriteId>, at: usize, id: WriteId)
    requires within { at ≤ vec_len ids.old }
    requires room { vec_len ids.old < vec_capacity ids.old }
    ensures ids { ids.new.items ≡ take at ids.old.items ++ id ∷ drop at ids.old.items }
    ensures capacity { vec_capacity ids.old ≤ vec_capacity ids.new }
{
    match ids.insert(at, id) {
        Ok(()) => {}
        Err(_) => unreachable!(), // they have room
    }
}

// Adds the further ids to ids that have room for those that are new.
pub(crate) fn add_all(ids: &mut Vec<WriteId>, further: Ids)
    requires ascending { IsAscending ids.old.items }
    requires room { length (with_ids further ids.old.items) ≤ vec_capacity ids.old }
    ensures ids { ids.new.items ≡ with_ids further.entry ids.old.items }
    ensures capacity { vec_capacity ids.old ≤ vec_capacity ids.new }
{
    for id in further {
        if let Err(at) = place_of(ids.as_slice(), id) {
            put_at(ids, at, *id);
        }
    }
}
