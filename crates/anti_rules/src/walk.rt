ghost use Rattle.std.specs.Prelude.{◌≡◌, [], map, IfOk};
ghost use Rattle.toml.specs.View.{view, table_view};
ghost use Rattle.anti_rules.specs.Rules.{rule_line};
ghost use Rattle.anti_rules.specs.Walk.{placed, passed, first_from, first_at, first_handler, first_place};
ghost use Rattle.anti_rules.specs.inner.Parts.{parts, place_in};

use crate::body::next;
use crate::form_lines::top_line;
use crate::place::{Part, Place};
use crate::rule::Rule;
use crate::rule_lines::{Thing, rule_line};
use crate::toml_tree::{services_in, text_at, things_at, things_in};
use anti_ids::NoMemory;
use std::alloc::Global;
use toml::{Table, Value};

// The number of items after so many more.
fn passed(before: u32, count: usize) -> u32
    ensures { result ≡ passed before count }
{
    (before as u64)
        .saturating_add(count as u64)
        .min(u32::MAX as u64) as u32
}

// The first of some things of a part that fails a rule, behind so many items.
fn first_from(
    alloc: Global,
    rule: Rule,
    doc: &Table,
    home: &str,
    part: Part,
    before: u32,
    values: &[Value],
) -> Result<Option<Place>, NoMemory>
    ensures { IfOk result (λ place. place
        ≡ first_from (rule_line rule (table_view doc.now) home.now part) part before []
        (map view values.now)) }
{
    let mut item = before;
    for (index, value) in values.iter().enumerate() {
        item = next(item);
        let thing = Thing {
            doc,
            home,
            part,
            earlier: &values[..index],
            value,
        };
        if let Some(line) = rule_line(alloc, rule, &thing)? {
            return Ok(Some(Place { part, item, line }));
        }
    }
    Ok(None)
}

// The first thing that fails of those that the document lists at a key.
fn first_at(
    alloc: Global,
    rule: Rule,
    doc: &Table,
    part: Part,
    key: &str,
) -> Result<Option<Place>, NoMemory>
    ensures { IfOk result (λ place. place ≡ first_at rule (table_view doc.now) part key.now) }
{
    first_from(alloc, rule, doc, "", part, 0, things_at(doc, key))
}

// The first handler that fails of some services. Handlers are counted over all services together.
fn first_handler(
    alloc: Global,
    rule: Rule,
    doc: &Table,
    services: &[Value],
) -> Result<Option<Place>, NoMemory>
    ensures { IfOk result (λ place. place
        ≡ first_handler rule (table_view doc.now) 0 (map view services.now)) }
{
    let mut before = 0;
    for service in services {
        let handlers = things_in(service, "handler");
        let home = text_at(service, "region");
        let place = first_from(alloc, rule, doc, home, Part::Handler, before, handlers)?;
        if place.is_some() {
            return Ok(place);
        }
        before = passed(before, handlers.len());
    }
    Ok(None)
}

// The parts of a document, in the order in which faults are sought.
static PARTS: [Part; 8] = [
    Part::Top,
    Part::Region,
    Part::Store,
    Part::Service,
    Part::Handler,
    Part::Sub,
    Part::Request,
    Part::Choice,
];

#[tactic(auto, unfolding(crate::specs::inner::Parts::parts))]
fn parts() -> &'static [Part]
    ensures { result.now ≡ parts }
{
    &PARTS
}

// The place of the line of an item that fails, where one does.
fn placed(part: Part, item: u32, line: Option<u32>) -> Option<Place>
    ensures { result ≡ placed part item line }
{
    match line {
        Some(line) => Some(Place { part, item, line }),
        None => None,
    }
}

// The first place in a part of a document that fails a rule.
fn place_in(alloc: Global, rule: Rule, doc: &Table, part: Part) -> Result<Option<Place>, NoMemory>
    ensures { IfOk result (λ place. place ≡ place_in rule (table_view doc.now) part) }
{
    match part {
        Part::Top => Ok(placed(Part::Top, 0, top_line(rule, doc))),
        Part::Region => first_at(alloc, rule, doc, Part::Region, "regions"),
        Part::Store => first_at(alloc, rule, doc, Part::Store, "store"),
        Part::Service => first_at(alloc, rule, doc, Part::Service, "service"),
        Part::Handler => first_handler(alloc, rule, doc, services_in(doc)),
        Part::Sub => first_at(alloc, rule, doc, Part::Sub, "sub"),
        Part::Request => first_at(alloc, rule, doc, Part::Request, "request"),
        Part::Choice => first_at(alloc, rule, doc, Part::Choice, "choices"),
    }
}

/// The first place of a document that fails a rule. The parts behind it are not walked.
pub fn first_place(alloc: Global, rule: Rule, doc: &Table) -> Result<Option<Place>, NoMemory>
    ensures { IfOk result (λ place. place ≡ first_place rule (table_view doc.now)) }
{
    for part in parts() {
        let place = place_in(alloc, rule, doc, *part)?;
        if place.is_some() {
            return Ok(place);
        }
    }
    Ok(None)
}
