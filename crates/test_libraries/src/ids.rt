ghost use Rattle.std.specs.Prelude.{◌≤◌};

use crate::made::{assert_at, assert_of, assert_so, id, lineage, versions};
use anti_ids::{
    Bytes, Copies, Lineage, LineageRefused, List, MOST_IDS, Name, NameFault, RoomyFull, Value,
    ValueFault, WriteId,
};
use std::alloc::Global;

// Texts, and why each is no name.
static NAMES: [(&[u8], Option<NameFault>); 5] = [
    (b"", Some(NameFault::Empty)),
    (&[b'a'; 33], Some(NameFault::TooLong)),
    (b"a b", Some(NameFault::BadByte(1))),
    (&[b'a'; 32], None),
    (b"n#1", None),
];

// Texts, and why each is no value.
static VALUES: [(&[u8], Option<ValueFault>); 4] = [
    (&[b'v'; 257], Some(ValueFault::TooLong)),
    (b"\xff", Some(ValueFault::BadUtf8)),
    (&[b'v'; 256], None),
    (b"", None),
];

#[test]
fn names_and_values_are_judged(rt: HostRuntime) {
    for (text, fault) in &NAMES {
        assert_of(&rt, text, Name::new(text).err() == *fault);
    }
    for (text, fault) in &VALUES {
        assert_of(&rt, text, Value::new(rt.alloc(), text).err() == *fault);
    }
}

// What `Roomy::append` answers on a lineage, with room for one id, and the lineage after it. `None` where memory runs out.
fn appended(lineage: Lineage, id: &WriteId) -> Option<(Result<bool, RoomyFull>, Lineage)>
    requires { 1 ≤ id.now.version }
{
    let Ok(mut roomy) = lineage.reserve(1) else {
        return None;
    };
    let answer = roomy.append(*id);
    Some((answer, roomy.into_lineage()))
}

// What `Roomy::transfer` answers on a lineage, with room for the other, and the lineage after it. `None` where memory runs out.
fn united(lineage: Lineage, other: &Lineage) -> Option<(Result<(), RoomyFull>, Lineage)> {
    let Ok(mut roomy) = lineage.reserve(other.len()) else {
        return None;
    };
    let answer = roomy.transfer(other);
    Some((answer, roomy.into_lineage()))
}

// Whether a lineage takes an id as new just once.
fn is_new_once(alloc: Global, id: &WriteId) -> bool
    requires { 1 ≤ id.now.version }
{
    let mut lineage = Lineage::root(alloc);
    lineage.append(*id) == Ok(true)
        && lineage.contains(id)
        && lineage.append(*id) == Ok(false)
        && lineage.contains(id)
}

// How many ids there are after each step: the ids of two stores, one of them twice, without one, of one store; and again with it, and
// with the other's once more. `None` where memory runs out.
fn lengths(alloc: Global, lineage: Lineage, other: &Lineage, id: &WriteId) -> Option<[u32; 6]>
    requires { 1 ≤ id.now.version }
{
    let mut lineage = lineage;
    let Ok(()) = lineage.transfer(other) else {
        return None;
    };
    let both = lineage.len();
    let Ok(_) = lineage.append(*id) else {
        return None;
    };
    let twice = lineage.len();
    lineage.remove(id);
    let without = lineage.len();
    let Ok(own) = lineage.ids_of(alloc, 0) else {
        return None;
    };
    let Some((_, again)) = appended(lineage, id) else {
        return None;
    };
    let with = again.len();
    let Some((_, united)) = united(again, other) else {
        return None;
    };
    Some([both, twice, without, own.len(), with, united.len()])
}

// How many ids of one store and of the other there are, and how many after each step. What is gone is marked in two words up to 128 ids.
static SETS: [(u64, u64, [u32; 6]); 4] = [
    (3, 4, [7, 7, 6, 2, 7, 7]),
    (124, 4, [128, 128, 127, 123, 128, 128]),
    (124, 5, [129, 129, 128, 123, 129, 129]),
    (500, 12, [512, 512, 511, 499, 512, 512]),
];

// Whether lineages are sets. The one that is copied is gone by then.
fn are_sets(alloc: Global, own: u64, others: u64, wanted: [u32; 6]) -> bool {
    let Ok(id) = id(0, b"k", 2) else {
        return false;
    };
    let Ok(other) = versions(alloc, 1, b"k", others) else {
        return false;
    };
    let Ok(one) = versions(alloc, 0, b"k", own) else {
        return false;
    };
    let Ok(lineage) = one.copy(alloc) else {
        return false;
    };
    one.stop();
    is_new_once(alloc, &id) && lengths(alloc, lineage, &other, &id) == Some(wanted)
}

#[test]
fn lineages_are_sets(rt: HostRuntime) {
    for (place, (own, others, wanted)) in SETS.iter().enumerate() {
        assert_at(&rt, place, are_sets(rt.alloc(), *own, *others, *wanted));
    }
}

// Whether two lineages have the same ids.
fn are_same(one: &Lineage, other: &Lineage) -> bool {
    if one.len() != other.len() {
        return false;
    }
    for index in 0..one.len() {
        if one.at(index) != other.at(index) {
            return false;
        }
    }
    true
}

// Whether a full lineage refuses one more id in each way, and stays as it was.
fn refuses(alloc: Global, full: &Lineage, id: &WriteId, one: &Lineage) -> bool
    requires { 1 ≤ id.now.version }
{
    let Ok(copied) = full.copy(alloc) else {
        return false;
    };
    let mut lineage = copied;
    let by_append = lineage.append(*id) == Err(LineageRefused::Full);
    let by_transfer = lineage.transfer(one) == Err(LineageRefused::Full);
    let Some((roomy_append, appended)) = appended(lineage, id) else {
        return false;
    };
    let Some((roomy_transfer, united)) = united(appended, one) else {
        return false;
    };
    by_append
        && by_transfer
        && roomy_append == Err(RoomyFull)
        && roomy_transfer == Err(RoomyFull)
        && are_same(&united, full)
}

// The version of an id that is one more than a lineage may have.
const ONE_MORE: u64 = MOST_IDS as u64 + 1;

// Whether a full lineage refuses one more id, and can have room for it all the same.
fn is_full(alloc: Global) -> bool {
    let Ok(id) = id(0, b"k", ONE_MORE) else {
        return false;
    };
    let Ok(one) = lineage(alloc, &[0], &[(b"k", ONE_MORE)]) else {
        return false;
    };
    let Ok(full) = versions(alloc, 0, b"k", MOST_IDS as u64) else {
        return false;
    };
    refuses(alloc, &full, &id, &one) && full.reserve(MOST_IDS as u32).is_ok()
}

#[test]
fn full_lineages_stay_as_they_were(rt: HostRuntime) {
    assert_so(&rt, is_full(rt.alloc()));
}

// Whether a value has a copy.
fn is_copied(alloc: Global) -> bool {
    let Ok(value) = Value::new(alloc, b"v") else {
        return false;
    };
    match value.copy(alloc) {
        Ok(copied) => copied.bytes() == value.bytes(),
        Err(_) => false,
    }
}

// Whether bytes have the room that they reserve, and more comes behind it; and whether they have a copy. What did not fit would be
// missing.
fn are_bytes_kept(alloc: Global) -> bool {
    let mut bytes = Bytes::new(alloc);
    let is_reserved = bytes.reserve(4).is_ok();
    for byte in b"abcd" {
        let _ = bytes.push(*byte);
    }
    let _ = bytes.append(b"ef");
    match bytes.copy(alloc) {
        Ok(copied) => is_reserved && copied.bytes() == b"abcdef".as_slice(),
        Err(_) => false,
    }
}

// Whether there are four lineages where room for four is reserved, and four are added.
fn are_lineages_kept(alloc: Global) -> bool {
    let mut lineages: List<Lineage> = List::new(alloc);
    let is_reserved = lineages.reserve(4).is_ok();
    for _ in 0..4 {
        let _ = lineages.push(Lineage::root(alloc));
    }
    is_reserved && lineages.len() == 4
}

#[test]
fn lists_have_the_room_that_they_reserve(rt: HostRuntime) {
    let alloc = rt.alloc();
    assert_so(
        &rt,
        is_copied(alloc) && are_bytes_kept(alloc) && are_lineages_kept(alloc),
    );
}

// Whether what is empty gives nothing.
fn are_empty(alloc: Global) -> bool {
    let mut list: List<u32> = List::new(alloc);
    let mut bytes = Bytes::new(alloc);
    list.pop().is_none() && bytes.pop().is_none() && Lineage::root(alloc).last().is_none()
}

#[test]
fn what_is_empty_gives_nothing(rt: HostRuntime) {
    assert_so(&rt, are_empty(rt.alloc()));
}
