ghost use Rattle.std.specs.Prelude.{◌≡◌, map, option_map, option_copied};
ghost use Rattle.toml.specs.Data.{get_member, as_table};
ghost use Rattle.toml.specs.View.{view, table_view, array_view};
ghost use Rattle.anti_rules.specs.Trees.{elements, things_at, things_in, text_of, member_in, text_at, is_among, are_among, are_distinct, name_in, is_named, named, stores_in, services_in, regions_in};

use toml::value::Array;
use toml::{Table, Value};

/// What stands at a key.
pub fn member<'a>(table: &'a Table, key: &str) -> Option<&'a Value>
    ensures { option_map (λ value. view value.now) result
        ≡ get_member key.now (table_view table.now) }
{
    table.get(key)
}

/// The elements of an array.
pub fn elements(array: &Array) -> &[Value]
    ensures { map view result.now ≡ elements (array_view array.now) }
{
    array.as_slice()
}

/// What the array at a key of a table lists; nothing where there is no array.
pub fn things_at<'a>(table: &'a Table, key: &str) -> &'a [Value]
    ensures { map view result.now ≡ things_at key.now (table_view table.now) }
{
    match member(table, key) {
        Some(value) => match value.as_array() {
            Some(array) => elements(array),
            None => &[],
        },
        None => &[],
    }
}

/// What the array at a key of a thing lists; nothing where the thing is no table.
pub fn things_in<'a>(value: &'a Value, key: &str) -> &'a [Value]
    ensures { map view result.now ≡ things_in key.now (view value.now) }
{
    match value.as_table() {
        Some(table) => things_at(table, key),
        None => &[],
    }
}

/// The text that a thing is; empty where it is none.
pub fn text_of(value: &Value) -> &str
    ensures { result.now ≡ text_of (view value.now) }
{
    match value.as_str() {
        Some(text) => text,
        None => "",
    }
}

/// What stands at a key of a thing that is a table.
pub fn member_in<'a>(value: &'a Value, key: &str) -> Option<&'a Value>
    ensures { option_map (λ value. view value.now) result ≡ member_in key.now (view value.now) }
{
    match value.as_table() {
        Some(table) => member(table, key),
        None => None,
    }
}

/// The text at a key of a thing; empty where there is none.
pub fn text_at<'a>(value: &'a Value, key: &str) -> &'a str
    ensures { result.now ≡ text_at key.now (view value.now) }
{
    match member_in(value, key) {
        Some(found) => text_of(found),
        None => "",
    }
}

/// Whether one of some things is this text.
pub fn is_among(text: &str, values: &[Value]) -> bool
    ensures { result ≡ is_among text.now (map view values.now) }
{
    for value in values {
        if text_of(value) == text {
            return true;
        }
    }
    false
}

/// Whether each of some things is a text among others.
pub fn are_among(others: &[Value], values: &[Value]) -> bool
    ensures { result ≡ are_among (map view others.now) (map view values.now) }
{
    for value in values {
        if !is_among(text_of(value), others) {
            return false;
        }
    }
    true
}

/// Whether no two of some things are the same text.
pub fn are_distinct(values: &[Value]) -> bool
    ensures { result ≡ are_distinct (map view values.now) }
{
    let mut rest = values;
    while let [first, later @ ..] = rest {
        if is_among(text_of(first), later) {
            return false;
        }
        rest = later;
    }
    true
}

/// The name of a thing.
pub fn name_in(value: &Value) -> &str
    ensures { result.now ≡ name_in (view value.now) }
{
    text_at(value, "name")
}

/// Whether one of some things has this name.
pub fn is_named(name: &[u8], values: &[Value]) -> bool
    ensures { result ≡ is_named name.now (map view values.now) }
{
    for value in values {
        if name_in(value).as_bytes() == name {
            return true;
        }
    }
    false
}

/// The first of some things that has this name.
pub fn named<'a>(name: &[u8], values: &'a [Value]) -> Option<&'a Value>
    ensures { option_map (λ value. view value.now) result ≡ named name.now (map view values.now) }
{
    for value in values {
        if name_in(value).as_bytes() == name {
            return Some(value);
        }
    }
    None
}

/// The stores of a document.
pub fn stores_in(doc: &Table) -> &[Value]
    ensures { map view result.now ≡ stores_in (table_view doc.now) }
{
    things_at(doc, "store")
}

/// The services of a document.
pub fn services_in(doc: &Table) -> &[Value]
    ensures { map view result.now ≡ services_in (table_view doc.now) }
{
    things_at(doc, "service")
}

/// The regions of a document.
pub fn regions_in(doc: &Table) -> &[Value]
    ensures { map view result.now ≡ regions_in (table_view doc.now) }
{
    things_at(doc, "regions")
}
