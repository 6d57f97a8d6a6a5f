ghost use Rattle.std.specs.Prelude.{◌≡◌, ◌≤◌, length, map, IfOk};
ghost use Rattle.toml.specs.View.{view, table_view};
ghost use Rattle.anti_lang.specs.Parsing.{parsed};
ghost use Rattle.anti_lang.specs.Parses.{texts_of};
ghost use Rattle.anti_rules.specs.inner.Parses.{if_parsed, body_stated, bodies_stated, parsed_bodies, all_bodies, bodies_fit, services_fit};

use crate::body::{body_in, texts_in};
use crate::rule::Rule;
use crate::statement::body_fits;
use crate::toml_tree::{services_in, text_at, things_in};
use anti_ids::{List, MOST_LINES, NoMemory};
use anti_lang::{Body, LangFault, Lines, parse};
use std::alloc::Global;
use toml::{Table, Value};

/// The parsed bodies of a document: for each service those of its handlers, all in the order of the document.
pub type Bodies = List<List<Body>>;

// The body that at most `MOST_LINES` lines state, where they state one.
fn body_of(alloc: Global, lines: &Lines) -> Result<Option<Body>, NoMemory>
    requires { length lines.now.items ≤ MOST_LINES }
    ensures { IfOk result (λ body. body ≡ if_parsed (parsed (texts_of lines.now))) }
{
    match parse(alloc, lines) {
        Ok(body) => Ok(Some(body)),
        Err(LangFault::Line { line: _, code: _ }) => Ok(None),
        Err(LangFault::NoMemory) => Err(NoMemory),
    }
}

// The body that a handler states, where it has at most `MOST_LINES` lines and they state one.
#[tactic(auto, unfolding(crate::specs::inner::Parses::body_stated))]
fn body_stated(alloc: Global, handler: &Value) -> Result<Option<Body>, NoMemory>
    ensures { IfOk result (λ body. body ≡ body_stated (view handler.now)) }
{
    let body = body_in(handler);
    if body.len() <= MOST_LINES {
        let lines = texts_in(alloc, body)?;
        body_of(alloc, &lines)
    } else {
        Ok(None)
    }
}

// The bodies of some handlers, where each states one.
fn bodies_stated(alloc: Global, handlers: &[Value]) -> Result<Option<List<Body>>, NoMemory>
    ensures { IfOk result (λ bodies. bodies ≡ bodies_stated (map view handlers.now)) }
{
    let mut bodies = List::new(alloc);
    for handler in handlers {
        let Some(body) = body_stated(alloc, handler)? else {
            return Ok(None);
        };
        bodies.add(body)?;
    }
    Ok(Some(bodies))
}

/// The parsed bodies of a document, where each handler states one in at most `MOST_LINES` lines.
pub fn parsed_bodies(alloc: Global, doc: &Table) -> Result<Option<Bodies>, NoMemory>
    ensures { IfOk result (λ bodies. bodies ≡ parsed_bodies (table_view doc.now)) }
{
    let mut all = List::new(alloc);
    for service in services_in(doc) {
        let Some(bodies) = bodies_stated(alloc, things_in(service, "handler"))? else {
            return Ok(None);
        };
        all.add(bodies)?;
    }
    Ok(Some(all))
}

// Whether each statement of some bodies passes the test of a rule, for a service of this region.
fn bodies_fit(rule: Rule, doc: &Table, home: &str, bodies: &[Body]) -> bool
    ensures { result ≡ bodies_fit rule (table_view doc.now) home.now bodies.now }
{
    for body in bodies {
        if !body_fits(rule, doc, home, body.as_slice()) {
            return false;
        }
    }
    true
}

/// Whether each statement of the parsed bodies of a document passes the test of a rule.
pub fn services_fit(rule: Rule, doc: &Table, bodies: &Bodies) -> bool
    requires { bodies.now ≡ all_bodies (table_view doc.now) }
    ensures { result ≡ services_fit rule (table_view doc.now) }
{
    let services = services_in(doc);
    for (index, service) in services.iter().enumerate() {
        let home = text_at(service, "region");
        if !bodies_fit(rule, doc, home, bodies.at(index).as_slice()) {
            return false;
        }
    }
    true
}
