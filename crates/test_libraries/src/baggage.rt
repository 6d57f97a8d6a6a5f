ghost use Rattle.std.specs.Prelude.{◌^◌, ◌≤◌, length};

use crate::made::{assert_at, assert_of, assert_so, versions};
use anti_baggage::{
    Baggage, BaggageFault, Carried, decode, encode, encode_one, escape, texts_state_lineages,
};
use anti_ids::{Bytes, Copies, Lineage, List, Name};
use std::alloc::Global;

// The names of two stores.
fn stores() -> Option<[Name; 2]> {
    match (Name::new(b"posts"), Name::new(b"notes")) {
        (Ok(posts), Ok(notes)) => Some([posts, notes]),
        _ => None,
    }
}

// Whether a lineage has just this text of the version that the text has.
fn has_text(alloc: Global, stores: &[Name], lineage: &Lineage, text: &[u8]) -> bool {
    let made = if text.starts_with(b"1;") {
        encode_one(alloc, stores, lineage)
    } else {
        encode(alloc, stores, lineage)
    };
    match made {
        Ok(found) => found.bytes() == text,
        Err(_) => false,
    }
}

// Whether what a text states is a lineage that has just this text, or it was refused for a fault.
fn is_stated(
    alloc: Global,
    stores: &[Name],
    stated: &Result<Lineage, BaggageFault>,
    text: &[u8],
    wanted: &Result<(), BaggageFault>,
) -> bool {
    match stated {
        Ok(lineage) => wanted.is_ok() && has_text(alloc, stores, lineage, text),
        Err(fault) => *wanted == Err(*fault),
    }
}

// Whether a text states a lineage that has just this text, or is refused for a fault, and as baggage tells the same.
fn comes_to(alloc: Global, text: &[u8], wanted: &Result<(), BaggageFault>) -> bool {
    let Some(stores) = stores() else {
        return false;
    };
    let mut bytes = Bytes::new(alloc);
    let Ok(()) = bytes.append(text) else {
        return false;
    };
    let told = Baggage::from_text(bytes).lineage(alloc, &stores);
    let read = decode(alloc, &stores, text);
    is_stated(alloc, &stores, &read, text, wanted) && is_stated(alloc, &stores, &told, text, wanted)
}

// Texts, and what each comes to.
static TEXTS: [(&[u8], Result<(), BaggageFault>); 39] = [
    (b"1;", Ok(())),
    (b"1;posts/p1@1,notes/n%231@7", Ok(())),
    (b"1;posts/a@18446744073709551615", Ok(())),
    (
        b"1;posts/a@18446744073709551616",
        Err(BaggageFault::BadId(1)),
    ),
    (b"", Err(BaggageFault::BadHead)),
    (b"3;", Err(BaggageFault::BadHead)),
    (b"2", Err(BaggageFault::BadHead)),
    (b"1;posts/a%2d@1", Err(BaggageFault::BadId(1))),
    (b"1;posts/%70@1", Err(BaggageFault::BadId(1))),
    (b"1;posts/n#1@1", Err(BaggageFault::BadId(1))),
    (b"1;posts/a", Err(BaggageFault::BadId(1))),
    (b"1;posts/@1", Err(BaggageFault::BadId(1))),
    (b"1;posts@1", Err(BaggageFault::BadId(1))),
    (b"1;posts/a@0", Err(BaggageFault::BadId(1))),
    (b"1;posts/a@01", Err(BaggageFault::BadId(1))),
    (b"1;posts/a@+1", Err(BaggageFault::BadId(1))),
    (b"1;posts/a@-1", Err(BaggageFault::BadId(1))),
    (b"1;posts/a@1,", Err(BaggageFault::BadId(2))),
    (b"1;posts/a@1,,", Err(BaggageFault::BadId(2))),
    (b"1;blogs/a@0", Err(BaggageFault::BadId(1))),
    (b"1;blogs/a@1", Err(BaggageFault::UnknownStore(1))),
    (b"1;posts/b@2,blogs/a@1", Err(BaggageFault::UnknownStore(2))),
    (b"1;posts/a@2,posts/a@1", Err(BaggageFault::NotAscending(2))),
    (b"1;posts/a@2,posts/a@2", Err(BaggageFault::NotAscending(2))),
    (b"1;notes/a@1,posts/a@2", Err(BaggageFault::NotAscending(2))),
    (b"1;posts/p1@1,p2@3", Err(BaggageFault::BadId(2))),
    (b"1;posts/p1@1|notes/a@2", Err(BaggageFault::BadId(1))),
    (b"2;", Ok(())),
    (b"2;posts/p1@1|notes/n%231@7", Ok(())),
    (b"2;posts/p1@1,p2@3|notes/n%231@7", Ok(())),
    (
        b"2;posts/p1@1|posts/p2@3",
        Err(BaggageFault::NotAscending(2)),
    ),
    (b"2;notes/a@1|posts/a@1", Err(BaggageFault::NotAscending(2))),
    (b"2;posts/p1@1|", Err(BaggageFault::BadId(2))),
    (b"2;|posts/p1@1", Err(BaggageFault::BadId(1))),
    (b"2;posts/p1@1,posts/p2@3", Err(BaggageFault::BadId(2))),
    (b"2;posts/p1@1,p2@1", Ok(())),
    (b"2;posts/p1@2,p2@1", Err(BaggageFault::NotAscending(2))),
    (b"2;posts/a%2d@1", Err(BaggageFault::BadId(1))),
    (b"2;blogs/a@1", Err(BaggageFault::UnknownStore(1))),
];

#[test]
fn texts_are_read_exactly(rt: HostRuntime) {
    texts_state_lineages();
    for (text, wanted) in &TEXTS {
        assert_of(&rt, text, comes_to(rt.alloc(), text, wanted));
    }
}

// What stands behind a full text of version 1 or 2, and what the whole comes to.
static ENDS: [(u32, &[u8], Result<(), BaggageFault>); 11] = [
    (1, b"", Ok(())),
    (1, b",posts/a@513", Err(BaggageFault::TooMany(513))),
    (1, b",posts/a@512", Err(BaggageFault::NotAscending(513))),
    (1, b",blogs/a@513", Err(BaggageFault::UnknownStore(513))),
    (1, b",posts/a@513x", Err(BaggageFault::BadId(513))),
    (2, b"", Ok(())),
    (2, b",a@513", Err(BaggageFault::TooMany(513))),
    (2, b"|notes/a@1", Err(BaggageFault::TooMany(513))),
    (2, b"|posts/a@513", Err(BaggageFault::NotAscending(513))),
    (2, b"|blogs/a@513", Err(BaggageFault::UnknownStore(513))),
    (2, b",posts/a@513", Err(BaggageFault::BadId(513))),
];

// The text of 512 ids, and what stands behind them.
fn full(alloc: Global, version: u32, behind: &[u8]) -> Option<Bytes> {
    let Some(stores) = stores() else {
        return None;
    };
    let Ok(lineage) = versions(alloc, 0, b"a", 512) else {
        return None;
    };
    let made = if version == 1 {
        encode_one(alloc, &stores, &lineage)
    } else {
        encode(alloc, &stores, &lineage)
    };
    let Ok(mut text) = made else {
        return None;
    };
    let Ok(()) = text.append(behind) else {
        return None;
    };
    Some(text)
}

// Whether a full text comes to this with what stands behind it.
fn ends_so(alloc: Global, version: u32, behind: &[u8], wanted: &Result<(), BaggageFault>) -> bool {
    match full(alloc, version, behind) {
        Some(text) => comes_to(alloc, text.bytes(), wanted),
        None => false,
    }
}

#[test]
fn the_faults_have_an_order(rt: HostRuntime) {
    for (version, behind, wanted) in &ENDS {
        assert_of(&rt, behind, ends_so(rt.alloc(), *version, behind, wanted));
    }
}

// Whether over the names of these stores baggage states a lineage that has its text and ends in this store.
fn states(alloc: Global, baggage: &Baggage, stores: &[Name], store: u32) -> bool
    requires { length stores.now ≤ 2 ^ 32 }
{
    let Ok(lineage) = baggage.lineage(alloc, stores) else {
        return false;
    };
    let Some(last) = lineage.last() else {
        return false;
    };
    last.store == store && has_text(alloc, stores, &lineage, baggage.bytes())
}

// What is carried by whom a message of a lineage came to.
fn carried(alloc: Global, stores: &[Name], lineage: &Lineage) -> Option<Carried>
    requires { length stores.now ≤ 2 ^ 32 }
{
    let Ok(baggage) = Baggage::of(alloc, stores, lineage) else {
        return None;
    };
    let Ok(copied) = baggage.copy(alloc) else {
        return None;
    };
    copied.carried(alloc, stores).ok()
}

// The first versions of a key of the first store, as they are carried behind a message of them: whether what they post once and once more
// has the text of the lineage, and states it; and whether over the names of the stores turned about it states the same versions of the
// second store.
fn is_kept(alloc: Global, count: u64) -> bool {
    let Some(stores) = stores() else {
        return false;
    };
    let turned = [stores[1], stores[0]];
    let Ok(lineage) = versions(alloc, 0, b"a", count) else {
        return false;
    };
    let Some(mut carried) = carried(alloc, &stores, &lineage) else {
        return false;
    };
    let Ok(first) = carried.keep_baggage(alloc, &stores) else {
        return false;
    };
    let Ok(again) = carried.keep_baggage(alloc, &stores) else {
        return false;
    };
    has_text(alloc, &stores, &lineage, first.bytes())
        && again.bytes() == first.bytes()
        && states(alloc, &again, &stores, 0)
        && states(alloc, &again, &turned, 1)
}

// How many versions there are.
static COUNTS: [u64; 3] = [1, 65, 512];

#[test]
fn a_text_serves_again(rt: HostRuntime) {
    for (place, count) in COUNTS.iter().enumerate() {
        assert_at(&rt, place, is_kept(rt.alloc(), *count));
    }
}

// Whether what is carried has its text.
fn has_its_text(alloc: Global, stores: &[Name], carried: &mut Carried) -> bool {
    match carried.keep_baggage(alloc, stores) {
        Ok(made) => has_text(alloc, stores, carried.lineage(), made.bytes()),
        Err(_) => false,
    }
}

// Whether what is carried has the text of what it became, by an id more, by the ids of another lineage, and without one of them.
fn is_told_anew(alloc: Global) -> bool {
    let Some(stores) = stores() else {
        return false;
    };
    let Ok(lineage) = versions(alloc, 0, b"a", 9) else {
        return false;
    };
    let Ok(others) = versions(alloc, 1, b"a", 9) else {
        return false;
    };
    let Some(last) = others.last() else {
        return false;
    };
    let Some(mut carried) = carried(alloc, &stores, &lineage) else {
        return false;
    };
    let before = has_its_text(alloc, &stores, &mut carried);
    let appended = carried.append(last).is_ok() && has_its_text(alloc, &stores, &mut carried);
    let joined = carried.transfer(&others).is_ok() && has_its_text(alloc, &stores, &mut carried);
    carried.remove(&last);
    before && appended && joined && has_its_text(alloc, &stores, &mut carried)
}

#[test]
fn another_lineage_has_another_text(rt: HostRuntime) {
    assert_so(&rt, is_told_anew(rt.alloc()));
}

// Whether bytes that are no plain text are escaped.
fn are_escaped(alloc: Global) -> bool {
    let mut text = List::new(alloc);
    escape(&mut text, b"a-~ %\xff").is_ok() && text.bytes() == b"a-~%20%25%FF".as_slice()
}

#[test]
fn bytes_are_escaped(rt: HostRuntime) {
    assert_so(&rt, are_escaped(rt.alloc()));
}
