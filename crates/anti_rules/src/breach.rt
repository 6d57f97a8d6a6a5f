ghost use Rattle.std.specs.Prelude.{◌≡◌, ◌≤◌, length, IfOk};
ghost use Rattle.toml.specs.View.{table_view};
ghost use Rattle.anti_rules.specs.Order.{rules, breach_from, first_breach};
ghost use Rattle.anti_rules.specs.Walk.{first_place};
ghost use Rattle.anti_rules.specs.inner.Parses.{parsed_bodies, all_bodies, is_shown, breach_in};

use crate::bodies::{Bodies, parsed_bodies, services_fit};
use crate::place::Place;
use crate::rule::Rule;
use crate::walk::first_place;
use anti_ids::NoMemory;
use std::alloc::Global;
use toml::Table;

/// A rule that a document fails, and where.
#[derive(Clone, Copy)]
pub struct Breach {
    /// The number of the rule, counted from 1.
    pub rule: u32,
    /// The first place at which the document fails it.
    pub place: Place,
}

static RULES: [Rule; 24] = [
    Rule::Listed,
    Rule::There,
    Rule::Typed,
    Rule::Counted,
    Rule::Ranged,
    Rule::PlainNames,
    Rule::DistinctRegions,
    Rule::DistinctObjects,
    Rule::DistinctHandlers,
    Rule::DistinctSubs,
    Rule::StoreKinds,
    Rule::Replicas,
    Rule::KindKeys,
    Rule::ServiceRegions,
    Rule::SubStores,
    Rule::SubHandlers,
    Rule::SubReplicas,
    Rule::RequestHandlers,
    Rule::RequestValues,
    Rule::Statements,
    Rule::Blocks,
    Rule::Variables,
    Rule::StatementStores,
    Rule::StatementHandlers,
];

// The rules in the order of the format, so that the k-th is number k.
#[tactic(auto, unfolding(crate::specs::Order::rules))]
fn rules() -> &'static [Rule]
    ensures all { result.now ≡ rules }
    ensures few { length result.now ≤ 24 }
{
    &RULES
}

// Whether the parsed bodies of a document show that it keeps a rule, so that no line is read again for it.
fn is_shown(rule: Rule, doc: &Table, bodies: &Bodies) -> bool
    requires { bodies.now ≡ all_bodies (table_view doc.now) }
    ensures { result ≡ is_shown rule (table_view doc.now) }
{
    match rule {
        Rule::Statements => true,
        Rule::Blocks => true,
        Rule::Variables => true,
        Rule::StatementStores => services_fit(rule, doc, bodies),
        Rule::StatementHandlers => services_fit(rule, doc, bodies),
        _ => false,
    }
}

// The first place at which a document fails a rule. The bodies are those of the document, where all parse.
fn first_failing(
    alloc: Global,
    rule: Rule,
    doc: &Table,
    bodies: &Option<Bodies>,
) -> Result<Option<Place>, NoMemory>
    requires { bodies.now ≡ parsed_bodies (table_view doc.now) }
    ensures { IfOk result (λ place. place ≡ first_place rule (table_view doc.now)) }
{
    if let Some(bodies) = bodies {
        if is_shown(rule, doc, bodies) {
            return Ok(None);
        }
    }
    first_place(alloc, rule, doc)
}

// The first of some rules that a document fails. There are few rules.
fn breach_from(
    alloc: Global,
    doc: &Table,
    bodies: &Option<Bodies>,
    tried: &[Rule],
) -> Result<Option<Breach>, NoMemory>
    requires few { length tried.now ≤ 24 }
    requires bodies { bodies.now ≡ parsed_bodies (table_view doc.now) }
    ensures { IfOk result (λ breach. breach ≡ breach_from (table_view doc.now) 0 tried.now) }
{
    for (index, rule) in tried.iter().enumerate() {
        if let Some(place) = first_failing(alloc, *rule, doc, bodies)? {
            return Ok(Some(Breach {
                rule: index as u32 + 1,
                place,
            }));
        }
    }
    Ok(None)
}

/// The first rule of the format that a document fails, with the first place at which it does, or the parsed bodies of a document that
/// fails none. Where all bodies parse, no line is read twice. Only want of memory is another answer.
#[tactic(auto, unfolding(crate::specs::Order::first_breach))]
pub fn first_breach(alloc: Global, doc: &Table) -> Result<Result<Bodies, Breach>, NoMemory>
    ensures breach { IfOk result (λ found. breach_in found ≡ first_breach (table_view doc.now)) }
    ensures bodies { IfOk result (λ found. IfOk found (λ bodies.
        bodies ≡ all_bodies (table_view doc.now))) }
{
    let bodies = parsed_bodies(alloc, doc)?;
    if let Some(breach) = breach_from(alloc, doc, &bodies, rules())? {
        return Ok(Err(breach));
    }
    match bodies {
        Some(bodies) => Ok(Ok(bodies)),
        // a document with a body that does not parse has a breach
        None => unreachable!(),
    }
}
