ghost use Rattle.std.specs.Prelude.{◌≡◌, ◌≤◌, ◌^◌, length, position};
ghost use Rattle.std.specs.Str.{bytes_eq};
ghost use Rattle.anti_ids.specs.Answers.{AnswersBut};
ghost use Rattle.anti_baggage.specs.Reading.{between_bars, between_commas, id_in, id_in_order, id_keyed, id_named, is_above, keyed_in, may_follow, named_in, read_lineage};
ghost use Rattle.anti_baggage.specs.Steps.{Adds, AddsAll};
ghost use Rattle.anti_baggage.specs.declared.fault.BaggageFault.TheVariants as faults;
ghost use Rattle.anti_baggage.specs.declared.place.Place.TheVariants as places;

use crate::fault::BaggageFault;
use crate::named_id::{keyed_in, named_in};
use crate::place::Place;
use anti_ids::{Lineage, LineageRefused, MOST_IDS, Name, WriteId};
use std::alloc::Global;

// The number of the first store that has a name.
fn number_of(stores: &[Name], name: &Name) -> Option<usize>
    ensures { result ≡ position (bytes_eq name.now) stores.now }
{
    stores.iter().position(|store| name == store)
}

// Whether an id is above the one before it, where there is one.
fn is_above(before: Option<WriteId>, id: &WriteId) -> bool
    ensures { result ≡ is_above before id.now }
{
    match before {
        Some(before) => before.cmp(id).is_lt(),
        None => true,
    }
}

// Whether an id may stand behind the one before it.
fn may_follow(place: Place, before: Option<WriteId>, id: &WriteId) -> bool
    ensures { result ≡ may_follow place before id.now }
{
    match (place, before) {
        (Place::First, Some(before)) => before.store < id.store,
        _ => is_above(before, id),
    }
}

// The id at a number, where it may stand behind the one before it and is not one too many.
fn id_in_order(
    place: Place,
    before: Option<WriteId>,
    at: u32,
    id: WriteId,
) -> Result<WriteId, BaggageFault>
    ensures { result ≡ id_in_order place before at id }
{
    if !may_follow(place, before, &id) {
        return Err(BaggageFault::NotAscending(at));
    }
    if at as usize > MOST_IDS {
        return Err(BaggageFault::TooMany(at));
    }
    Ok(id)
}

// The id at a number that a text is which names its store, or why there is none.
fn id_named(
    stores: &[Name],
    place: Place,
    before: Option<WriteId>,
    at: u32,
    text: &[u8],
) -> Result<WriteId, BaggageFault>
    requires { length stores.now ≤ 2 ^ 32 }
    ensures { result ≡ id_named stores.now place before at (named_in text.now) }
{
    let Some(named) = named_in(text) else {
        return Err(BaggageFault::BadId(at));
    };
    let Some(number) = number_of(stores, &named.store) else {
        return Err(BaggageFault::UnknownStore(at));
    };
    let id = WriteId {
        store: number as u32,
        key: named.key,
        version: named.version,
    };
    id_in_order(place, before, at, id)
}

// The id at a number that a text is which is of the store of the id before it, or why there is none.
fn id_keyed(before: Option<WriteId>, at: u32, text: &[u8]) -> Result<WriteId, BaggageFault>
    ensures { result ≡ id_keyed before at (keyed_in text.now) }
{
    let (Some(last), Some((key, version))) = (before, keyed_in(text)) else {
        return Err(BaggageFault::BadId(at));
    };
    let id = WriteId {
        store: last.store,
        key,
        version,
    };
    id_in_order(Place::Later, before, at, id)
}

// The id at a number that a piece is, or why there is none.
fn id_in(
    stores: &[Name],
    before: Option<WriteId>,
    at: u32,
    place: Place,
    text: &[u8],
) -> Result<WriteId, BaggageFault>
    requires { length stores.now ≤ 2 ^ 32 }
    ensures { result ≡ id_in stores.now before at (place, text.now) }
{
    match place {
        Place::Later => id_keyed(before, at, text),
        Place::Alone | Place::First => id_named(stores, place, before, at, text),
    }
}

// Adds the id that a piece is behind those of a lineage.
fn add_id(
    lineage: &mut Lineage,
    stores: &[Name],
    place: Place,
    text: &[u8],
) -> Result<(), BaggageFault>
    requires { length stores.now ≤ 2 ^ 32 }
    ensures { Adds stores.now (place, text.now) lineage.old lineage.new result }
{
    let before = lineage.last();
    let id = id_in(stores, before, lineage.len() + 1, place, text)?;
    match lineage.append(id) {
        Ok(_) => Ok(()),
        Err(LineageRefused::Full) => unreachable!(), // `id_in` refuses one id too many
        Err(LineageRefused::NoMemory) => Err(BaggageFault::NoMemory),
    }
}

// Adds the ids between the commas of a text behind those of a lineage.
fn add_ids(
    lineage: &mut Lineage,
    stores: &[Name],
    first: Place,
    later: Place,
    text: &[u8],
) -> Result<(), BaggageFault>
    requires { length stores.now ≤ 2 ^ 32 }
    ensures { AddsAll stores.now (between_commas first later text.now) lineage.old lineage.new result }
{
    let mut place = first;
    for piece in text.split(|b| *b == b',') {
        add_id(lineage, stores, place, piece)?;
        place = later;
    }
    Ok(())
}

// Adds the ids of the groups between the bars of a text behind those of a lineage.
fn add_groups(lineage: &mut Lineage, stores: &[Name], text: &[u8]) -> Result<(), BaggageFault>
    requires { length stores.now ≤ 2 ^ 32 }
    ensures { AddsAll stores.now (between_bars text.now) lineage.old lineage.new result }
{
    for group in text.split(|b| *b == b'|') {
        add_ids(lineage, stores, Place::First, Place::Later, group)?;
    }
    Ok(())
}

/// The lineage of which the bytes are one of the two texts, over the names of the stores by their numbers, which fit in 32 bits; or the
/// first fault. Where two stores have one name it stands for the first.
pub fn decode(alloc: Global, stores: &[Name], bytes: &[u8]) -> Result<Lineage, BaggageFault>
    requires { length stores.now ≤ 2 ^ 32 }
    ensures { AnswersBut faults.NoMemory result (read_lineage stores.now bytes.now) }
{
    let mut lineage = Lineage::root(alloc);
    if let Some(text) = bytes.strip_prefix(b"1;") {
        if !text.is_empty() {
            add_ids(&mut lineage, stores, Place::Alone, Place::Alone, text)?;
        }
        return Ok(lineage);
    }
    let Some(text) = bytes.strip_prefix(b"2;") else {
        return Err(BaggageFault::BadHead);
    };
    if !text.is_empty() {
        add_groups(&mut lineage, stores, text)?;
    }
    Ok(lineage)
}
