ghost use Rattle.std.specs.Prelude.{◌≡◌, ◌<◌, ◌++◌, length, All, IfOk, OnOk, IsTrue};
ghost use Rattle.anti_app.specs.Sound.{is_sound};
ghost use Rattle.anti_trace.specs.Legal.{IsLegalTrace};
ghost use Rattle.law_causal.specs.Reads.{is_at};
ghost use Rattle.law_causal.specs.Words as words;
ghost use Rattle.anti_order.specs.Answers.{AreMarksOf, IsAnswer};
ghost use Rattle.anti_session.specs.Members.{members, members_in};
ghost use Rattle.anti_session.specs.inner.Adding.{added};
ghost use Rattle.anti_session.specs.inner.Indexed.{IsIndexOf};

use crate::laws::members_are_a_chain;
use crate::session_index::SessionIndex;
use anti_app::App;
use anti_ids::NoMemory;
use anti_kind::Birth;
use anti_order::{Grounds, Marks, OrderAnswer, mark_at};
use anti_past::reads;
use anti_trace::Trace;
use std::alloc::Global;

// Whether the entry at a place is a read.
fn reads_at(trace: &Trace, place: u32) -> bool
    ensures { result ≡ is_at (λ e. words.reads e.call) trace.now place }
{
    if place < trace.len() {
        return reads(&trace.at(place).call);
    }
    false
}

// Adds what the entry at a place adds: a read itself, and else the members of the server of its call.
#[cycle(adding)]
fn add_entry(
    index: &SessionIndex,
    trace: &Trace,
    depth: u32,
    place: u32,
    server: Option<Birth>,
    members: &mut Vec<u32>,
) -> Result<(), NoMemory>
    requires { IsIndexOf trace.now index.now }
    ensures { OnOk result (members.new.items ≡ members.old.items
        ++ added (λ b. members_in depth trace.now b 1) (is_at (λ e. words.reads e.call) trace.now place) place server) }
{
    if reads_at(trace, place) {
        return match members.push(place) {
            Ok(()) => Ok(()),
            Err(_) => Err(NoMemory),
        };
    }
    match server {
        Some(birth) => add_members(index, trace, depth, birth, 1, members),
        None => Ok(()),
    }
}

// Adds the members of a span, where calls are followed so many deep.
#[cycle(adding)]
fn add_members(
    index: &SessionIndex,
    trace: &Trace,
    depth: u32,
    birth: Birth,
    span: u32,
    members: &mut Vec<u32>,
) -> Result<(), NoMemory>
    requires { IsIndexOf trace.now index.now }
    ensures { OnOk result (members.new.items ≡ members.old.items ++ members_in depth trace.now birth span) }
{
    if depth == 0 {
        return Ok(());
    }
    let places = index.places(birth, span);
    for (number, place) in places.iter().enumerate() {
        let server = index.server(trace, places, number, *place);
        add_entry(index, trace, depth - 1, *place, server, members)?;
    }
    Ok(())
}

/// The places of the members of a span. The only error is want of memory.
pub fn members_of(
    alloc: Global,
    index: &SessionIndex,
    trace: &Trace,
    birth: Birth,
    span: u32,
) -> Result<Vec<u32>, NoMemory>
    requires { IsIndexOf trace.now index.now }
    ensures { IfOk result (λ places. places.items ≡ members trace.now birth span) }
{
    let mut places = Vec::new(alloc);
    add_members(index, trace, trace.len(), birth, span, &mut places)?;
    Ok(places)
}

// The marks of the entries at some places.
fn marks_of(alloc: Global, trace: &Trace, places: &[u32]) -> Result<Marks, NoMemory>
    requires { All (λ x. x < length trace.now) places.now }
    ensures { IfOk result (λ marks. AreMarksOf trace.now places.now marks.items) }
{
    let mut marks = Marks::new(alloc);
    for place in places {
        marks.add(mark_at(trace, *place))?;
    }
    Ok(marks)
}

/// The marks of the members of a span of a process, which is named by its birth: its reads, and those of the calls that it waited for. The
/// only error is want of memory.
pub fn members(
    alloc: Global,
    app: &App,
    trace: &Trace,
    birth: Birth,
    span: u32,
) -> Result<Marks, NoMemory>
    requires sound { IsTrue (is_sound app.now) }
    requires legal { IsLegalTrace app.now trace.now }
    ensures { IfOk result (λ marks. AreMarksOf trace.now (members trace.now birth span) marks.items) }
{
    let _ = app;
    let index = SessionIndex::of(alloc, trace)?;
    let places = members_of(alloc, &index, trace, birth, span)?;
    members_are_a_chain();
    marks_of(alloc, trace, places.as_slice())
}

/// What is answered of the members of a span of a process, which is named by its birth. The only error is want of memory.
pub fn session_order(
    alloc: Global,
    app: &App,
    trace: &Trace,
    birth: Birth,
    span: u32,
) -> Result<OrderAnswer, NoMemory>
    requires sound { IsTrue (is_sound app.now) }
    requires legal { IsLegalTrace app.now trace.now }
    ensures { IfOk result (IsAnswer app.now trace.now (members trace.now birth span)) }
{
    let index = SessionIndex::of(alloc, trace)?;
    let places = members_of(alloc, &index, trace, birth, span)?;
    members_are_a_chain();
    let grounds = Grounds::of(alloc, app, trace)?;
    grounds.answer(alloc, trace, places.as_slice())
}
