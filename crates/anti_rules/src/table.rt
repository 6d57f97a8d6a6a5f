ghost use Rattle.std.specs.Prelude.{◌≡◌, map};
ghost use Rattle.std.specs.List.{list_all, list_any};
ghost use Rattle.std.specs.Str.{bytes_eq};
ghost use Rattle.toml.specs.View.{view, table_view};
ghost use Rattle.anti_rules.specs.inner.Keys.{key_view, fits};
ghost use Rattle.anti_rules.specs.Keys.{are_listed, are_there, is_text, elements_of, is_count, has_type, has_count, has_range, all_fit};

use crate::rule::Rule;
use crate::table_keys::{KeyKind, TableKey};
use crate::toml_tree::{elements, member};
use toml::{Table, Value};

// Whether a name is that of a key.
fn is_key(keys: &[TableKey], name: &str) -> bool
    ensures { result ≡ list_any (λ key. bytes_eq name.now key.name) (map key_view keys.now) }
{
    for key in keys {
        if name == key.name {
            return true;
        }
    }
    false
}

/// Whether each key of a table is listed.
pub fn are_listed(keys: &[TableKey], table: &Table) -> bool
    ensures { result ≡ are_listed (map key_view keys.now) (table_view table.now) }
{
    for name in table.keys() {
        if !is_key(keys, name.as_str()) {
            return false;
        }
    }
    true
}

/// Whether each key without a default is there.
pub fn are_there(keys: &[TableKey], table: &Table) -> bool
    ensures { result ≡ are_there (map key_view keys.now) (table_view table.now) }
{
    for key in keys {
        if key.is_needed && member(table, key.name).is_none() {
            return false;
        }
    }
    true
}

/// Whether a thing is a text.
pub fn is_text(value: &Value) -> bool
    ensures { result ≡ is_text (view value.now) }
{
    value.as_str().is_some()
}

// Whether each of some things is a text.
fn are_texts(values: &[Value]) -> bool
    ensures { result ≡ list_all is_text (map view values.now) }
{
    for value in values {
        if !is_text(value) {
            return false;
        }
    }
    true
}

// The elements of a thing; none where it is no array.
fn elements_of(value: &Value) -> &[Value]
    ensures { map view result.now ≡ elements_of (view value.now) }
{
    match value.as_array() {
        Some(array) => elements(array),
        None => &[],
    }
}

// Whether a thing has the type of a key.
fn has_type(kind: KeyKind, value: &Value) -> bool
    ensures { result ≡ has_type kind (view value.now) }
{
    match kind {
        KeyKind::Text => is_text(value),
        KeyKind::Number { least: _, most: _ } => value.as_integer().is_some(),
        KeyKind::Texts { least: _, most: _ } => value.as_array().is_some()
            && are_texts(elements_of(value)),
        KeyKind::Things { least: _, most: _ } => value.as_array().is_some(),
    }
}

// Whether a thing has a number of elements in the range of a key.
fn has_count(kind: KeyKind, value: &Value) -> bool
    ensures { result ≡ has_count kind (view value.now) }
{
    match kind {
        KeyKind::Text => true,
        KeyKind::Number { least: _, most: _ } => true,
        KeyKind::Texts { least, most } => is_count(least, most, elements_of(value)),
        KeyKind::Things { least, most } => is_count(least, most, elements_of(value)),
    }
}

// Whether there are at least and at most so many things.
fn is_count(least: usize, most: usize, values: &[Value]) -> bool
    ensures { result ≡ is_count least most (map view values.now) }
{
    least <= values.len() && values.len() <= most
}

// Whether a thing is in the range of a key.
fn has_range(kind: KeyKind, value: &Value) -> bool
    ensures { result ≡ has_range kind (view value.now) }
{
    match kind {
        KeyKind::Text => true,
        KeyKind::Number { least, most } => match value.as_integer() {
            Some(number) => least <= number && number <= most,
            None => true,
        },
        KeyKind::Texts { least: _, most: _ } => true,
        KeyKind::Things { least: _, most: _ } => true,
    }
}

// The test that a rule makes of what stands at a key.
fn fits(rule: Rule, kind: KeyKind, value: &Value) -> bool
    ensures { result ≡ fits rule kind (view value.now) }
{
    match rule {
        Rule::Typed => has_type(kind, value),
        Rule::Counted => has_count(kind, value),
        Rule::Ranged => has_range(kind, value),
        _ => true,
    }
}

/// Whether what stands at the keys passes a rule's test.
pub fn all_fit(rule: Rule, keys: &[TableKey], table: &Table) -> bool
    ensures { result ≡ all_fit (fits rule) (map key_view keys.now) (table_view table.now) }
{
    for key in keys {
        if let Some(value) = member(table, key.name) {
            if !fits(rule, key.kind, value) {
                return false;
            }
        }
    }
    true
}
