ghost use Rattle.std.specs.Prelude.{◌≡◌};
ghost use Rattle.std.specs.Option.{option_map_or};
ghost use Rattle.toml.specs.Data.{table, as_table};
ghost use Rattle.toml.specs.View.{view, table_view};
ghost use Rattle.anti_rules.specs.Keys.{keys_of, is_text};
ghost use Rattle.anti_rules.specs.Statements.{bad_line};
ghost use Rattle.anti_rules.specs.Rules.{wants, keys_pass, form_line};
ghost use Rattle.anti_rules.specs.inner.Keys.{keys_fit};

use crate::body::other_line;
use crate::place::Part;
use crate::rule::Rule;
use crate::table::{all_fit, are_listed, are_there, is_text};
use crate::table_keys::keys_of;
use toml::{Table, Value};

/// What is wanted fails at line 0.
pub fn wants(fits: bool) -> Option<u32>
    ensures { result ≡ wants fits }
{
    if fits { None } else { Some(0) }
}

// Whether a table of a part passes the test that a rule makes of it by its keys.
fn keys_fit(rule: Rule, part: Part, table: &Table) -> bool
    ensures { result ≡ keys_fit rule (keys_of part) (table_view table.now) }
{
    let keys = keys_of(part);
    match rule {
        Rule::Listed => are_listed(keys, table),
        Rule::There => are_there(keys, table),
        Rule::Typed => all_fit(Rule::Typed, keys, table),
        Rule::Counted => all_fit(Rule::Counted, keys, table),
        Rule::Ranged => all_fit(Rule::Ranged, keys, table),
        _ => true,
    }
}

// The same of a thing of the part. What is no table has the other answer.
fn table_fits(rule: Rule, part: Part, value: &Value, other: bool) -> bool
    ensures { result
        ≡ option_map_or (keys_fit rule (keys_of part)) (as_table (view value.now)) other }
{
    match value.as_table() {
        Some(table) => keys_fit(rule, part, table),
        None => other,
    }
}

// Whether a thing of a part passes the test that a rule makes of its keys. A region and a choice have none.
fn keys_pass(rule: Rule, part: Part, value: &Value) -> bool
    ensures { result ≡ keys_pass (keys_fit rule) part (view value.now) }
{
    match part {
        Part::Region => true,
        Part::Choice => true,
        _ => table_fits(rule, part, value, true),
    }
}

// The rule on types: a region and a choice are texts, and all else are tables. Of a body the line that is no text is told.
fn typed_line(part: Part, value: &Value) -> Option<u32>
    ensures { result ≡ form_line Rule.Typed part (view value.now) }
{
    match part {
        Part::Region => wants(is_text(value)),
        Part::Choice => wants(is_text(value)),
        Part::Handler => {
            if table_fits(Rule::Typed, part, value, false) {
                other_line(value)
            } else {
                Some(0)
            }
        },
        _ => wants(table_fits(Rule::Typed, part, value, false)),
    }
}

/// The line at which a thing of a part fails a rule on its form. The other rules say nothing of it here.
pub fn form_line(rule: Rule, part: Part, value: &Value) -> Option<u32>
    ensures { result ≡ form_line rule part (view value.now) }
{
    match rule {
        Rule::Listed => wants(keys_pass(Rule::Listed, part, value)),
        Rule::There => wants(keys_pass(Rule::There, part, value)),
        Rule::Typed => typed_line(part, value),
        Rule::Counted => wants(keys_pass(Rule::Counted, part, value)),
        Rule::Ranged => wants(keys_pass(Rule::Ranged, part, value)),
        _ => None,
    }
}

/// The same of the document itself.
pub fn top_line(rule: Rule, doc: &Table) -> Option<u32>
    ensures { result ≡ form_line rule Part.Top (table (table_view doc.now)) }
{
    wants(keys_fit(rule, Part::Top, doc))
}
