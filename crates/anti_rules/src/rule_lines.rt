ghost use Rattle.std.specs.Prelude.{◌≡◌, codes, map, IfOk};
ghost use Rattle.toml.specs.View.{view, table_view};
ghost use Rattle.anti_ids.specs.Names.{is_plain};
ghost use Rattle.anti_rules.specs.Trees.{text_at};
ghost use Rattle.anti_rules.specs.Statements.{has_handler};
ghost use Rattle.anti_rules.specs.Rules.{has_only, home_of, rule_line};
ghost use Rattle.anti_rules.specs.inner.Facts.{holds};
ghost use Rattle.anti_rules.specs.inner.Things.{line_of};

use crate::body::{bad_line, fault_line};
use crate::form_lines::{form_line, wants};
use crate::place::Part;
use crate::rule::Rule;
use crate::statement::{has_handler, store_is, store_reaches};
use crate::store_facts::{Fact, kind_at, kind_is};
use crate::toml_tree::{
    are_among, are_distinct, is_among, is_named, member_in, name_in, named, regions_in,
    services_in, stores_in, text_at, text_of, things_in,
};
use anti_ids::{LONGEST_VALUE, NoMemory};
use anti_lang::{LangCode, plain_name};
use std::alloc::Global;
use toml::{Table, Value};

/// What a rule is tried on: a thing with a place of its own, and what the rule may look at beside it.
#[derive(Clone, Copy)]
pub struct Thing<'a> {
    /// The document.
    pub doc: &'a Table,
    /// The region of the service that has the handler; of another part nothing.
    pub home: &'a str,
    /// The part.
    pub part: Part,
    /// The things of the part before this one; of a handler those of its service.
    pub earlier: &'a [Value],
    /// The thing.
    pub value: &'a Value,
}

// Whether a text is a plain name.
fn is_plain(text: &str) -> bool
    ensures { result ≡ is_plain text.now }
{
    plain_name(text.as_bytes()).is_some()
}

// The rules on a region.
fn region_line(rule: Rule, thing: &Thing) -> Option<u32>
    ensures { result ≡ line_of rule Part.Region thing.now }
{
    let name = text_of(thing.value);
    match rule {
        Rule::PlainNames => wants(is_plain(name)),
        Rule::DistinctRegions => wants(!is_among(name, thing.earlier)),
        _ => form_line(rule, Part::Region, thing.value),
    }
}

// Whether a store has a key only where a fact is so of the stores of its kind.
fn has_only(key: &str, fact: Fact, store: &Value) -> bool
    ensures { result ≡ has_only key.now (holds fact) (view store.now) }
{
    member_in(store, key).is_none() || kind_is(fact, store)
}

// The rules on a store.
fn store_line(rule: Rule, thing: &Thing) -> Option<u32>
    ensures { result ≡ line_of rule Part.Store thing.now }
{
    let store = thing.value;
    match rule {
        Rule::PlainNames => wants(is_plain(name_in(store))),
        Rule::DistinctObjects => wants(!is_named(name_in(store).as_bytes(), thing.earlier)),
        Rule::StoreKinds => wants(kind_at(store).is_some()),
        Rule::Replicas => {
            let replicas = things_in(store, "replicas");
            wants(are_among(regions_in(thing.doc), replicas) && are_distinct(replicas))
        },
        Rule::KindKeys => {
            wants(has_only("tries", Fact::Tried, store) && has_only("room", Fact::Cached, store))
        },
        _ => form_line(rule, Part::Store, store),
    }
}

// The rules on a service.
fn service_line(rule: Rule, thing: &Thing) -> Option<u32>
    ensures { result ≡ line_of rule Part.Service thing.now }
{
    match rule {
        Rule::PlainNames => wants(is_plain(name_in(thing.value))),
        Rule::DistinctObjects => {
            let name = name_in(thing.value).as_bytes();
            wants(!is_named(name, stores_in(thing.doc)) && !is_named(name, thing.earlier))
        },
        Rule::ServiceRegions => {
            wants(is_among(text_at(thing.value, "region"), regions_in(thing.doc)))
        },
        _ => form_line(rule, Part::Service, thing.value),
    }
}

// The rules on a handler.
fn handler_line(alloc: Global, rule: Rule, thing: &Thing) -> Result<Option<u32>, NoMemory>
    ensures { IfOk result (λ line. line ≡ line_of rule Part.Handler thing.now) }
{
    let handler = thing.value;
    match rule {
        Rule::PlainNames => Ok(wants(is_plain(name_in(handler)))),
        Rule::DistinctHandlers => {
            Ok(wants(!is_named(name_in(handler).as_bytes(), thing.earlier)))
        },
        Rule::Statements => fault_line(alloc, LangCode::Unknown, handler),
        Rule::Blocks => fault_line(alloc, LangCode::Block, handler),
        Rule::Variables => fault_line(alloc, LangCode::Variable, handler),
        Rule::StatementStores => bad_line(
            alloc,
            Rule::StatementStores,
            thing.doc,
            thing.home,
            handler,
        ),
        Rule::StatementHandlers => bad_line(
            alloc,
            Rule::StatementHandlers,
            thing.doc,
            thing.home,
            handler,
        ),
        _ => Ok(form_line(rule, Part::Handler, handler)),
    }
}

// Whether the service that a sub or a request names is there and has the handler.
fn handler_is_there(doc: &Table, value: &Value) -> bool
    ensures { result ≡ has_handler (table_view doc.now)
        (text_at (codes "service") (view value.now)) (text_at (codes "handler") (view value.now)) }
{
    let service = text_at(value, "service").as_bytes();
    has_handler(doc, service, text_at(value, "handler").as_bytes())
}

// The region of a sub's service.
fn home_of<'a>(doc: &'a Table, sub: &Value) -> &'a str
    ensures { result.now ≡ home_of (table_view doc.now) (view sub.now) }
{
    match named(text_at(sub, "service").as_bytes(), services_in(doc)) {
        Some(service) => text_at(service, "region"),
        None => "",
    }
}

// The rules on a sub.
fn sub_line(rule: Rule, thing: &Thing) -> Option<u32>
    ensures { result ≡ line_of rule Part.Sub thing.now }
{
    let sub = thing.value;
    let store = text_at(sub, "store").as_bytes();
    match rule {
        Rule::PlainNames => wants(is_plain(name_in(sub)) && is_plain(text_at(sub, "channel"))),
        Rule::DistinctSubs => wants(!is_named(name_in(sub).as_bytes(), thing.earlier)),
        Rule::SubStores => wants(store_is(Fact::Pulled, thing.doc, store)),
        Rule::SubHandlers => wants(handler_is_there(thing.doc, sub)),
        Rule::SubReplicas => wants(store_reaches(home_of(thing.doc, sub), thing.doc, store)),
        _ => form_line(rule, Part::Sub, sub),
    }
}

// The rules on a request.
fn request_line(rule: Rule, thing: &Thing) -> Option<u32>
    ensures { result ≡ line_of rule Part.Request thing.now }
{
    match rule {
        Rule::RequestHandlers => wants(handler_is_there(thing.doc, thing.value)),
        Rule::RequestValues => wants(text_at(thing.value, "value").len() <= LONGEST_VALUE),
        _ => form_line(rule, Part::Request, thing.value),
    }
}

/// The line at which a thing of a document fails a rule.
pub fn rule_line(alloc: Global, rule: Rule, thing: &Thing) -> Result<Option<u32>, NoMemory>
    ensures { IfOk result (λ line. line ≡ line_of rule thing.now.part thing.now) }
{
    match thing.part {
        Part::Top => Ok(form_line(rule, Part::Top, thing.value)),
        Part::Region => Ok(region_line(rule, thing)),
        Part::Store => Ok(store_line(rule, thing)),
        Part::Service => Ok(service_line(rule, thing)),
        Part::Handler => handler_line(alloc, rule, thing),
        Part::Sub => Ok(sub_line(rule, thing)),
        Part::Request => Ok(request_line(rule, thing)),
        Part::Choice => Ok(form_line(rule, Part::Choice, thing.value)),
    }
}
