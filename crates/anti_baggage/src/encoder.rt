ghost use Rattle.std.specs.Prelude.{◌≡◌, ◌++◌, decimal, OnErr, OnOk, IfOk};
ghost use Rattle.std.specs.Option.{option_map};
ghost use Rattle.anti_ids.specs.List.{plain};
ghost use Rattle.anti_baggage.specs.Texts.{grouped_text, id_text, keyed_text, lineage_text, lineage_text_one, store_name};

use crate::escapes::escape;
use anti_ids::{Bytes, Copies, Lineage, List, Name, NoMemory, WriteId};
use itoa::Buffer;
use std::alloc::Global;

// The name of a store by its number; no bytes, where there is none.
fn store_name(stores: &[Name], store: u32) -> &[u8]
    ensures { result.now ≡ store_name stores.now store }
{
    match stores.get(store as usize) {
        Some(name) => name.bytes(),
        None => &[],
    }
}

// Adds a number in decimal at the end of a text without room.
fn add_number(text: &mut List<u8>, number: u64) -> Result<(), NoMemory>
    requires { text.old.spare ≡ 0 }
    ensures ok { OnOk result (text.new ≡ plain (text.old.items ++ decimal number)) }
    ensures err { OnErr result (text.new ≡ text.old) }
    ensures spare { text.new.spare ≡ 0 }
{
    let mut digits = Buffer::new();
    text.append(digits.format(number).as_bytes())
}

// Adds a key and a version at the end of a text without room.
fn add_keyed(text: &mut List<u8>, id: &WriteId) -> Result<(), NoMemory>
    requires { text.old.spare ≡ 0 }
    ensures ok { OnOk result (text.new ≡ plain (text.old.items ++ keyed_text id.now.key id.now.version)) }
    ensures spare { text.new.spare ≡ 0 }
{
    escape(text, id.key.bytes())?;
    text.add(b'@')?;
    add_number(text, id.version)
}

// Adds an id with the name of its store at the end of a text without room.
fn add_id(text: &mut List<u8>, stores: &[Name], id: &WriteId) -> Result<(), NoMemory>
    requires { text.old.spare ≡ 0 }
    ensures ok { OnOk result (text.new ≡ plain (text.old.items ++ id_text stores.now id.now)) }
    ensures spare { text.new.spare ≡ 0 }
{
    escape(text, store_name(stores, id.store))?;
    text.add(b'/')?;
    add_keyed(text, id)
}

// Adds an id of version 2 at the end of a text without room, behind the one before it.
fn add_grouped(
    text: &mut List<u8>,
    stores: &[Name],
    before: Option<&WriteId>,
    id: &WriteId,
) -> Result<(), NoMemory>
    requires { text.old.spare ≡ 0 }
    ensures ok { OnOk result (text.new ≡ plain (text.old.items ++ grouped_text stores.now (option_map (λ b. b.now) before.entry) id.now)) }
    ensures spare { text.new.spare ≡ 0 }
{
    let Some(before) = before else {
        return add_id(text, stores, id);
    };
    if id.store == before.store {
        text.add(b',')?;
        return add_keyed(text, id);
    }
    text.add(b'|')?;
    add_id(text, stores, id)
}

// Adds the text of version 2 at the end of a text without room.
fn add_lineage(text: &mut List<u8>, stores: &[Name], lineage: &Lineage) -> Result<(), NoMemory>
    requires { text.old.spare ≡ 0 }
    ensures ok { OnOk result (text.new ≡ plain (text.old.items ++ lineage_text stores.now lineage.now)) }
    ensures spare { text.new.spare ≡ 0 }
{
    text.append(b"2;")?;
    let mut before = None;
    for id in lineage.iter() {
        add_grouped(text, stores, before, id)?;
        before = Some(id);
    }
    Ok(())
}

// Adds the text of version 1 at the end of a text without room.
fn add_lineage_one(text: &mut List<u8>, stores: &[Name], lineage: &Lineage) -> Result<(), NoMemory>
    requires { text.old.spare ≡ 0 }
    ensures ok { OnOk result (text.new ≡ plain (text.old.items ++ lineage_text_one stores.now lineage.now)) }
    ensures spare { text.new.spare ≡ 0 }
{
    text.append(b"1;")?;
    let mut is_first = true;
    for id in lineage.iter() {
        if !is_first {
            text.add(b',')?;
        }
        add_id(text, stores, id)?;
        is_first = false;
    }
    Ok(())
}

/// The text of a lineage, of version 2, as a text of its own, over the names of the stores by their numbers: the name of each store stands there
/// once. No text with an id of a store that is not there is read again.
pub fn encode(alloc: Global, stores: &[Name], lineage: &Lineage) -> Result<Bytes, NoMemory>
    ensures { IfOk result (λ text. text ≡ plain (lineage_text stores.now lineage.now)) }
{
    let mut text = List::new(alloc);
    add_lineage(&mut text, stores, lineage)?;
    // What is copied without room shares its memory with its further copies.
    Bytes::from(text).copy(alloc)
}

/// The text of version 1: the name of its store stands before each id. Who reads version 1 alone can read it.
pub fn encode_one(alloc: Global, stores: &[Name], lineage: &Lineage) -> Result<Bytes, NoMemory>
    ensures { IfOk result (λ text. text ≡ plain (lineage_text_one stores.now lineage.now)) }
{
    let mut text = List::new(alloc);
    add_lineage_one(&mut text, stores, lineage)?;
    Bytes::from(text).copy(alloc)
}
