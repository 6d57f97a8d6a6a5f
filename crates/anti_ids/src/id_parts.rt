// Lists of ids in parts.
ghost use Rattle.std.specs.Prelude.{◌≡◌, ◌↔◌, ◌+◌, ◌<◌, ◌≤◌, ◌∷◌, ◌++◌, ◌^◌, [], length, get_or, slice_get, OnOk, OnErr, IfOk, IfErr, IsTrue};
ghost use Rattle.std.specs.declared.cmp.Ordering.TheVariants.{Greater};
ghost use Rattle.anti_ids.specs.Each.{Each};
ghost use Rattle.anti_ids.specs.Invariants.{IsAscending};
ghost use Rattle.anti_ids.specs.Ids.{id_cmp};
ghost use Rattle.anti_ids.specs.inner.Parts.{FindsPart, joined, put_at, put_in, shifted};
ghost use Rattle.anti_ids.specs.inner.Places.{IsPlace};

use crate::ascending;
use crate::copies::room_for;
use crate::id::WriteId;
use crate::id_part::{IdPart, MOST_IN_PART};
use crate::memory::NoMemory;
use std::alloc::Global;

// Adds a part of these ids at the end.
fn add_part(parts: &mut Vec<IdPart>, ids: &[WriteId]) -> Result<(), NoMemory>
    ensures ok { OnOk result (parts.new.items ≡ parts.old.items ++ ids.now ∷ []) }
    ensures err { OnErr result (parts.new.items ≡ parts.old.items) }
{
    let part = IdPart::of(*parts.allocator(), ids)?;
    match parts.push(part) {
        Ok(()) => Ok(()),
        Err(_) => Err(NoMemory),
    }
}

// Ids in parts, each but the last as long as may be.
pub(crate) fn parts_of(alloc: Global, ids: &[WriteId]) -> Result<Vec<IdPart>, NoMemory>
    ensures { IfOk result (λ v. joined v.items ≡ ids.now) }
{
    let mut parts = room_for(ids.len() / MOST_IN_PART, 1, alloc)?;
    let mut rest = ids;
    while !rest.is_empty() {
        let (front, behind) = rest.split_at(rest.len().min(MOST_IN_PART));
        add_part(&mut parts, front)?;
        rest = behind;
    }
    Ok(parts)
}

// The id at an index of a list of this length. It looks from the end.
pub(crate) fn at(parts: &[IdPart], len: usize, index: usize) -> WriteId
    requires len { length (joined parts.now) ≡ len }
    requires within { index < len }
    ensures { slice_get (joined parts.now) index ≡ Some result }
{
    let mut start = len;
    let mut number = parts.len();
    while number > 0 {
        number -= 1;
        let ids = parts[number].ids();
        start -= ids.len();
        if start <= index {
            return ids[index - start];
        }
    }
    unreachable!() // the index is below the length
}

// Whether all ids go behind an id.
fn begins_behind(ids: &[WriteId], id: &WriteId) -> bool
    requires { IsAscending ids.now }
    ensures { IsTrue result ↔ Each (λ other. id_cmp other id.now ≡ Greater) ids.now }
{
    match ids.first() {
        Some(first) => first.cmp(id).is_gt(),
        None => true,
    }
}

// A place in a part, counted from the first of all parts.
fn shifted(start: usize, place: Result<usize, usize>) -> Result<usize, usize>
    requires ok { IfOk place (λ at. start + at < 2 ^ 64) }
    requires err { IfErr place (λ at. start + at < 2 ^ 64) }
    ensures { result ≡ shifted start place }
{
    match place {
        Ok(at) => Ok(start + at),
        Err(at) => Err(start + at),
    }
}

// Where an id stands in a list of this length, or where it goes as it is not there. It looks from the end, so what goes last
// costs no search.
pub(crate) fn place_of(parts: &[IdPart], len: usize, id: &WriteId) -> Result<usize, usize>
    requires len { length (joined parts.now) ≡ len }
    requires ascending { IsAscending (joined parts.now) }
    ensures { IsPlace id.now (joined parts.now) result }
{
    let mut start = len;
    let mut number = parts.len();
    while number > 0 {
        number -= 1;
        let ids = parts[number].ids();
        start -= ids.len();
        if !begins_behind(ids, id) {
            return shifted(start, ascending::place_of(ids, id));
        }
    }
    Err(0)
}

// The part of a list of this length where an id is put at an index, and the index there. It looks from the end.
fn part_at(parts: &[IdPart], len: usize, at: usize) -> Option<(usize, usize)>
    requires len { length (joined parts.now) ≡ len }
    requires within { at ≤ len }
    ensures { FindsPart parts.now at result }
{
    let mut start = len;
    let mut number = parts.len();
    while number > 0 {
        number -= 1;
        start -= parts[number].len();
        if start < at {
            return Some((number, at - start));
        }
    }
    if parts.is_empty() { None } else { Some((0, 0)) }
}

// Puts an id into a part.
fn put_in(parts: &mut Vec<IdPart>, number: usize, at: usize, id: WriteId) -> Result<(), NoMemory>
    requires among { number < length parts.old.items }
    requires inside { at ≤ length (get_or parts.old.items number []) }
    ensures ok { OnOk result (joined parts.new.items ≡ put_in parts.old.items number at id) }
    ensures err { OnErr result (parts.new.items ≡ parts.old.items) }
{
    let part = &mut parts[number];
    part.put(at, id)?;
    Ok(())
}

// Cuts a part and puts an id there.
fn cut_with(parts: &mut Vec<IdPart>, number: usize, at: usize, id: WriteId) -> Result<(), NoMemory>
    requires among { number < length parts.old.items }
    requires inside { at ≤ length (get_or parts.old.items number []) }
    ensures ok { OnOk result (joined parts.new.items ≡ put_in parts.old.items number at id) }
    ensures err { OnErr result (parts.new.items ≡ parts.old.items) }
{
    let (front, back) = parts[number].cut(at, id)?;
    if parts.insert(number + 1, back).is_err() {
        return Err(NoMemory);
    }
    parts[number] = front;
    Ok(())
}

// Puts an id at an index of a list of this length.
pub(crate) fn put(
    parts: &mut Vec<IdPart>,
    len: usize,
    at: usize,
    id: WriteId,
) -> Result<(), NoMemory>
    requires len { length (joined parts.old.items) ≡ len }
    requires within { at ≤ len }
    ensures ok { OnOk result (joined parts.new.items ≡ put_at at id (joined parts.old.items)) }
    ensures err { OnErr result (parts.new.items ≡ parts.old.items) }
{
    let Some((number, at)) = part_at(parts.as_slice(), len, at) else {
        return add_part(parts, &[id]);
    };
    if parts[number].len() < MOST_IN_PART {
        put_in(parts, number, at, id)
    } else {
        cut_with(parts, number, at, id)
    }
}
