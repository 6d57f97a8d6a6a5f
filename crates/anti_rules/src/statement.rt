ghost use Rattle.std.specs.Prelude.{◌≡◌};
ghost use Rattle.toml.specs.View.{view, table_view};
ghost use Rattle.anti_lang.specs.Lines.{Does};
ghost use Rattle.anti_lang.specs.Bodies.{step_of};
ghost use Rattle.anti_lang.specs.Stated.{stated};
ghost use Rattle.anti_rules.specs.StoreFacts.{kind_is};
ghost use Rattle.anti_rules.specs.Statements.{has_store, has_replica, near, store_fits, has_handler, handler_exists};
ghost use Rattle.anti_rules.specs.inner.Facts.{holds};
ghost use Rattle.anti_rules.specs.inner.Parses.{line_fits, body_fits};

use crate::rule::Rule;
use crate::store_facts::{Fact, kind_is};
use crate::toml_tree::{is_among, is_named, named, services_in, stores_in, things_in};
use anti_ids::Name;
use anti_lang::{Line, Statement};
use toml::{Table, Value};

/// Whether the store of a name is there, and a fact is so of its kind.
pub fn store_is(fact: Fact, doc: &Table, name: &[u8]) -> bool
    ensures { result ≡ has_store (kind_is (holds fact)) (table_view doc.now) name.now }
{
    match named(name, stores_in(doc)) {
        Some(store) => kind_is(fact, store),
        None => false,
    }
}

// Whether a store has a replica in a region.
fn has_replica(home: &str, store: &Value) -> bool
    ensures { result ≡ has_replica home.now (view store.now) }
{
    is_among(home, things_in(store, "replicas"))
}

/// Whether the store of a name is there, and has a replica in a region.
pub fn store_reaches(home: &str, doc: &Table, name: &[u8]) -> bool
    ensures { result ≡ has_store (has_replica home.now) (table_view doc.now) name.now }
{
    match named(name, stores_in(doc)) {
        Some(store) => has_replica(home, store),
        None => false,
    }
}

// The same, where a fact is so of its kind.
fn store_near(fact: Fact, home: &str, doc: &Table, name: &Name) -> bool
    ensures { result ≡ has_store (near (holds fact) home.now) (table_view doc.now) name.now }
{
    match named(name.bytes(), stores_in(doc)) {
        Some(store) => has_replica(home, store) && kind_is(fact, store),
        None => false,
    }
}

// Whether the store of a statement exists and fits, for a service of this region.
fn store_fits(doc: &Table, home: &str, statement: &Statement) -> bool
    ensures { result ≡ store_fits (table_view doc.now) home.now (Does (step_of statement.now)) }
{
    match statement {
        Statement::Write {
            store,
            key: _,
            value: _,
            variable: _,
            untracked: _,
        } => is_named(store.bytes(), stores_in(doc)),
        Statement::Read {
            store,
            key: _,
            variable: _,
        } => store_near(Fact::Keyed, home, doc, store),
        Statement::Scan {
            store,
            prefix: _,
            variable: _,
        } => store_near(Fact::Scanned, home, doc, store),
        Statement::Poll {
            store,
            key: _,
            variable: _,
        } => store_near(Fact::Polled, home, doc, store),
        _ => true,
    }
}

/// Whether there is a service of this name with a handler of that name.
pub fn has_handler(doc: &Table, service: &[u8], handler: &[u8]) -> bool
    ensures { result ≡ has_handler (table_view doc.now) service.now handler.now }
{
    match named(service, services_in(doc)) {
        Some(found) => is_named(handler, things_in(found, "handler")),
        None => false,
    }
}

// Whether the service that a `call` or a `send` names is there and has the handler.
fn handler_exists(doc: &Table, statement: &Statement) -> bool
    ensures { result ≡ handler_exists (table_view doc.now) (Does (step_of statement.now)) }
{
    match statement {
        Statement::Call {
            service,
            handler,
            value: _,
            variable: _,
        } => has_handler(doc, service.bytes(), handler.bytes()),
        Statement::Send {
            service,
            handler,
            value: _,
        } => has_handler(doc, service.bytes(), handler.bytes()),
        _ => true,
    }
}

// The test that a rule makes of a statement.
fn statement_fits(rule: Rule, doc: &Table, home: &str, statement: &Statement) -> bool
    ensures { result ≡
        line_fits rule (table_view doc.now) home.now (Does (step_of statement.now)) }
{
    match rule {
        Rule::StatementStores => store_fits(doc, home, statement),
        Rule::StatementHandlers => handler_exists(doc, statement),
        _ => true,
    }
}

/// Whether each of some statements, with those of its block, passes the test that a rule makes of it.
pub fn body_fits(rule: Rule, doc: &Table, home: &str, statements: &[Statement]) -> bool
    ensures { result ≡ body_fits rule (table_view doc.now) home.now statements.now }
{
    for statement in statements {
        match statement {
            Statement::Repeat { count: _, body } => {
                if !body_fits(rule, doc, home, body.as_slice()) {
                    return false;
                }
            }
            Statement::IfAbsent { variable: _, body } => {
                if !body_fits(rule, doc, home, body.as_slice()) {
                    return false;
                }
            }
            _ => {
                if !statement_fits(rule, doc, home, statement) {
                    return false;
                }
            }
        }
    }
    true
}

/// The test that a rule makes of each line of a body.
pub fn line_fits(rule: Rule, doc: &Table, home: &str, line: &Line) -> bool
    ensures { result ≡ line_fits rule (table_view doc.now) home.now (stated line.now) }
{
    match line {
        Line::Does(statement) => statement_fits(rule, doc, home, statement),
        Line::Repeat(_) => true,
        Line::IfAbsent(_) => true,
        Line::End => true,
    }
}
