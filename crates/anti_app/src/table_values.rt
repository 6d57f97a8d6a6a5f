ghost use Rattle.std.specs.Prelude.{◌≡◌, IsTrue};
ghost use Rattle.std.specs.Option.{option_and_then};
ghost use Rattle.anti_ids.specs.Names.{is_plain};
ghost use Rattle.toml.specs.Data.{get_member, as_integer};
ghost use Rattle.toml.specs.View.{view, table_view};
ghost use Rattle.anti_rules.specs.Trees.{member_in, name_in};
ghost use Rattle.anti_app.specs.Parts.{number_or};

use anti_ids::Name;
use anti_lang::plain_name;
use anti_rules::{member, member_in, text_at};
use toml::{Table, Value};

/// The name that a text is.
pub fn name_of(text: &str) -> Name
    requires { IsTrue (is_plain text.now) }
    ensures { result ≡ text.now }
{
    match plain_name(text.as_bytes()) {
        Some(name) => name,
        // the text is a plain name
        None => unreachable!(),
    }
}

/// The name of a thing.
pub fn name_in(value: &Value) -> Name
    requires { IsTrue (is_plain (name_in (view value.now))) }
    ensures { result ≡ name_in (view value.now) }
{
    name_of(text_at(value, "name"))
}

/// The integer from 0 that was found, or a default.
pub fn number_or(default: u64, found: Option<i64>) -> u64
    ensures { result ≡ number_or default found }
{
    match found {
        Some(number) if 0 <= number => number as u64,
        _ => default,
    }
}

/// The integer at a key of a table.
pub fn integer_in(table: &Table, key: &str) -> Option<i64>
    ensures { result ≡ option_and_then as_integer (get_member key.now (table_view table.now)) }
{
    member(table, key)?.as_integer()
}

/// The integer at a key of a thing.
pub fn integer_at(value: &Value, key: &str) -> Option<i64>
    ensures { result ≡ option_and_then as_integer (member_in key.now (view value.now)) }
{
    member_in(value, key)?.as_integer()
}
