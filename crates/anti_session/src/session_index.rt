ghost use Rattle.std.specs.Prelude.{ℕ, ◌≡◌, ◌≤◌, List, length, IfOk, OnOk};
ghost use Rattle.std.specs.BTreeMap.{IsOrdered, get, keys};
ghost use Rattle.std.specs.List.{list_any};
ghost use Rattle.anti_kind.specs.declared.actor.Birth.{Birth};
ghost use Rattle.anti_kind.specs.declared.entry.Entry.{Entry};
ghost use Rattle.anti_app.specs.declared.app.App.{App};
ghost use Rattle.anti_trace.specs.Legal.{IsLegalTrace};
ghost use Rattle.law_causal.specs.Reads.{is_at};
ghost use Rattle.anti_past.specs.declared.span_keys.SpanKey.{SpanKey};
ghost use Rattle.anti_past.specs.inner.Keys.{is_in, key_cmp};
ghost use Rattle.anti_past.specs.inner.Marks.{pair_cmp};
ghost use Rattle.anti_past.specs.inner.Reading.{AreNoted, noted_for, with_place};
ghost use Rattle.anti_session.specs.Members.{answerer, answers, hears, server_of, span_places, taker, takes};
ghost use Rattle.anti_session.specs.Sessions.{is_requested, takes_request};
ghost use Rattle.anti_session.specs.inner.Adding.{server_at};
ghost use Rattle.anti_session.specs.inner.Calls.{call_at};
ghost use Rattle.anti_session.specs.inner.Indexed.{AreTakersOf, IsIndexOf, first_stays};

use crate::calls::{answers, call_of, hears, process_of, taken_of, takes_request};
use anti_ids::NoMemory;
use anti_kind::{Actor, Birth, Entry};
use anti_past::{PlaceByMark, SpanKey, key_of, note_under};
use anti_trace::{Mark, Trace};
use std::alloc::Global;
use std::collections::BTreeMap;

/// An index of a trace, by which the members of its spans are found without a walk along it for each.
#[derive(Drop)]
pub struct SessionIndex {
    // the places of the entries of each span
    pub(crate) spans: BTreeMap<SpanKey, Vec<u32>>,
    // who took each message first, by the inbox and the number of the message there
    pub(crate) takers: BTreeMap<(u32, u32), Actor>,
    pub(crate) marks: PlaceByMark,
}

// Notes the index of an entry under its span, where it is one of a process.
fn note_entry(
    alloc: Global,
    spans: &mut BTreeMap<SpanKey, Vec<u32>>,
    index: u32,
    entry: &Entry,
) -> Result<(), NoMemory>
    ensures { (q : SpanKey) → OnOk result (noted_for spans.new q
        ≡ with_place (is_in q entry.now) index (noted_for spans.old q)) }
{
    match key_of(entry) {
        Some(key) => note_under(alloc, spans, key, index),
        None => Ok(()),
    }
}

// The places of the entries of processes, under their spans.
fn entries_by_span(alloc: Global, trace: &Trace) -> Result<BTreeMap<SpanKey, Vec<u32>>, NoMemory>
    ensures { IfOk result (AreNoted is_in trace.now (length trace.now)) }
{
    let mut spans = BTreeMap::new(alloc);
    for index in 0..trace.len() {
        note_entry(alloc, &mut spans, index, trace.at(index))?;
    }
    Ok(spans)
}

// Notes who took a message, where an entry does and nobody took it before.
fn note_taker(takers: &mut BTreeMap<(u32, u32), Actor>, entry: &Entry) -> Result<(), NoMemory>
    ensures { (inbox number : ℕ) → OnOk result (get pair_cmp takers.new (inbox, number)
        ≡ first_stays (takes inbox number entry.now) entry.now.actor (get pair_cmp takers.old (inbox, number))) }
{
    let Some(message) = taken_of(entry) else {
        return Ok(());
    };
    if takers.contains_key(&message) {
        return Ok(());
    }
    match takers.insert(message, entry.actor) {
        Ok(_) => Ok(()),
        Err(_) => Err(NoMemory),
    }
}

// Who took each message first.
fn takers_of(alloc: Global, trace: &Trace) -> Result<BTreeMap<(u32, u32), Actor>, NoMemory>
    ensures { IfOk result (AreTakersOf trace.now) }
{
    let mut takers = BTreeMap::new(alloc);
    for index in 0..trace.len() {
        note_taker(&mut takers, trace.at(index))?;
    }
    Ok(takers)
}

// Whether the entry at a place posts the reply to a call.
fn answers_at(trace: &Trace, inbox: u32, number: u32, place: u32) -> bool
    ensures { result ≡ is_at (answers inbox number) trace.now place }
{
    if place < trace.len() {
        return answers(inbox, number, trace.at(place));
    }
    false
}

// Whether one of the entries at some places does.
fn some_answers(trace: &Trace, places: &[u32], inbox: u32, number: u32) -> bool
    ensures { result ≡ list_any (is_at (answers inbox number) trace.now) places.now }
{
    for place in places {
        if answers_at(trace, inbox, number, *place) {
            return true;
        }
    }
    false
}

// Whether the entry at a place takes the reply to a call.
fn hears_at(trace: &Trace, inbox: u32, number: u32, place: u32) -> bool
    ensures { result ≡ is_at (hears inbox number) trace.now place }
{
    if place < trace.len() {
        return hears(inbox, number, trace.at(place));
    }
    false
}

// Whether one of the entries at some places does.
fn some_hears(trace: &Trace, places: &[u32], inbox: u32, number: u32) -> bool
    ensures { result ≡ list_any (is_at (hears inbox number) trace.now) places.now }
{
    for place in places {
        if hears_at(trace, inbox, number, *place) {
            return true;
        }
    }
    false
}

// The same, from one of these places on first: a span takes the reply soon behind the call.
fn is_heard(trace: &Trace, places: &[u32], from: usize, inbox: u32, number: u32) -> bool
    requires { from ≤ length places.now }
    ensures { result ≡ list_any (is_at (hears inbox number) trace.now) places.now }
{
    let (before, rest) = places.split_at(from);
    if some_hears(trace, rest, inbox, number) {
        return true;
    }
    some_hears(trace, before, inbox, number)
}

// The call that the entry at a place posted, where it did.
fn call_at(trace: &Trace, place: u32) -> Option<(u32, u32)>
    ensures { result ≡ call_at trace.now place }
{
    if place < trace.len() {
        return call_of(trace.at(place));
    }
    None
}

// Whether the entry at a place takes a request.
fn takes_request_at(trace: &Trace, place: u32) -> bool
    ensures { result ≡ is_at (λ e. takes_request e.call e.reply) trace.now place }
{
    if place < trace.len() {
        let entry = trace.at(place);
        return takes_request(&entry.call, &entry.reply);
    }
    false
}

impl SessionIndex {
    /// The index of a legal trace. The only error is want of memory.
    pub fn of(alloc: Global, trace: &Trace) -> Result<SessionIndex, NoMemory>
        ensures { (app : App) → IsLegalTrace app trace.now → IfOk result (IsIndexOf trace.now) }
    {
        let spans = entries_by_span(alloc, trace)?;
        let takers = takers_of(alloc, trace)?;
        let marks = PlaceByMark::of(alloc, trace)?;
        Ok(SessionIndex {
            spans,
            takers,
            marks,
        })
    }

    /// The keys of the spans that processes were in, ascending. The only error is want of memory.
    pub fn keys(&self, alloc: Global) -> Result<Vec<SpanKey>, NoMemory>
        ensures listed { IfOk result (λ listed. listed.items ≡ keys self.now.spans) }
        ensures ordered { IsOrdered key_cmp self.now.spans }
    {
        let listed = self.spans.keys().copied().collect(alloc)?;
        Ok(listed)
    }

    /// The places of the entries of a span, which ascend.
    pub fn places(&self, birth: Birth, span: u32) -> &[u32]
        ensures { (trace : List Entry) → IsIndexOf trace self.now → result.now ≡ span_places trace birth span }
    {
        let key = SpanKey {
            object: birth.object,
            place: birth.place,
            span,
        };
        match self.spans.get(&key) {
            Some(places) => places.as_slice(),
            None => &[],
        }
    }

    // The process that took a message first.
    fn taker(&self, inbox: u32, number: u32) -> Option<Birth>
        ensures { (trace : List Entry) → IsIndexOf trace self.now → result ≡ taker trace inbox number }
    {
        match self.takers.get(&(inbox, number)) {
            Some(actor) => process_of(*actor),
            None => None,
        }
    }

    // It, where it posted the reply in its first span.
    fn answerer(&self, trace: &Trace, inbox: u32, number: u32) -> Option<Birth>
        requires { IsIndexOf trace.now self.now }
        ensures { result ≡ answerer trace.now inbox number }
    {
        let Some(birth) = self.taker(inbox, number) else {
            return None;
        };
        if some_answers(trace, self.places(birth, 1), inbox, number) {
            return Some(birth);
        }
        None
    }

    /// The process that answered the call which the entry at a place posted, where the span took the reply. The place is also given by its
    /// number among those of the span.
    pub fn server(&self, trace: &Trace, places: &[u32], number: usize, place: u32) -> Option<Birth>
        requires index { IsIndexOf trace.now self.now }
        requires number { number ≤ length places.now }
        ensures { (birth : Birth) (span : ℕ) → places.now ≡ span_places trace.now birth span
            → result ≡ server_at trace.now birth span place }
    {
        let Some((inbox, call)) = call_at(trace, place) else {
            return None;
        };
        if is_heard(trace, places, number, inbox, call) {
            return self.answerer(trace, inbox, call);
        }
        None
    }

    /// Whether a process was born by the take of a request.
    pub fn is_requested(&self, trace: &Trace, birth: Birth) -> bool
        requires { IsIndexOf trace.now self.now }
        ensures { result ≡ is_requested trace.now birth }
    {
        let mark = Mark {
            object: birth.object,
            place: birth.place,
        };
        match self.marks.find(mark) {
            Some(place) => takes_request_at(trace, place),
            None => false,
        }
    }
}
