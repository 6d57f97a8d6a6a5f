ghost use Rattle.std.specs.Prelude.{◌≡◌, ◌++◌, OnOk};
ghost use Rattle.anti_text.specs.Spans.{spaced_mark};
ghost use Rattle.anti_text.specs.Words.{store_name, service_name, name_among, handler_name, sub_name, sub_name_on, region_name, object_name, mark_text, quoted};

use crate::output::Output;
use anti_app::{App, HandlerDef, ObjectAt, number_on, object_at};
use anti_ids::NoMemory;
use anti_trace::Mark;

/// The name of a store, by its number; no text where there is none.
pub fn store_name(app: &App, store: usize) -> &[u8]
    ensures { result.now ≡ store_name app.now store }
{
    match app.stores.as_slice().get(store) {
        Some(found) => found.name.bytes(),
        None => &[],
    }
}

/// The name of a service, by its number; no text where there is none.
pub fn service_name(app: &App, service: usize) -> &[u8]
    ensures { result.now ≡ service_name app.now service }
{
    match app.services.as_slice().get(service) {
        Some(found) => found.name.bytes(),
        None => &[],
    }
}

// The name of a handler among those of a service, by its number; no text where there is none.
fn name_among(handlers: &[HandlerDef], handler: usize) -> &[u8]
    ensures { result.now ≡ name_among handler handlers.now }
{
    match handlers.get(handler) {
        Some(found) => found.name.bytes(),
        None => &[],
    }
}

/// The name of a handler of a service, by their numbers; no text where there is none.
pub fn handler_name(app: &App, service: usize, handler: usize) -> &[u8]
    ensures { result.now ≡ handler_name app.now service handler }
{
    match app.services.as_slice().get(service) {
        Some(found) => name_among(found.handlers.as_slice(), handler),
        None => &[],
    }
}

/// The name of a sub, by its number; no text where there is none.
pub fn sub_name(app: &App, sub: usize) -> &[u8]
    ensures { result.now ≡ sub_name app.now sub }
{
    match app.subs.as_slice().get(sub) {
        Some(found) => found.name.bytes(),
        None => &[],
    }
}

/// The name of the sub at a position among those of a store; no text where there is none.
pub fn sub_name_on(app: &App, store: u32, position: u32) -> &[u8]
    ensures { result.now ≡ sub_name_on app.now store position }
{
    match number_on(app, store, position as usize) {
        Some(number) => sub_name(app, number),
        None => &[],
    }
}

/// The name of a region, by its number; no text where there is none.
pub fn region_name(app: &App, region: u32) -> &[u8]
    ensures { result.now ≡ region_name app.now region }
{
    match app.regions.as_slice().get(region as usize) {
        Some(name) => name.bytes(),
        None => &[],
    }
}

/// The name of an object, by its number: that of the store, or of the service whose inbox it is; no text where there is none.
pub fn object_name(app: &App, object: u32) -> &[u8]
    ensures { result.now ≡ object_name app.now object }
{
    match object_at(app, object) {
        Some(ObjectAt::Store(store)) => store_name(app, store as usize),
        Some(ObjectAt::Inbox(service)) => service_name(app, service as usize),
        None => &[],
    }
}

/// Writes a place on an object.
pub fn mark_text(out: &mut Output, app: &App, object: u32, place: u32) -> Result<(), NoMemory>
    ensures { OnOk result (out.new ≡ out.old ++ mark_text app.now object place) }
{
    out.put(object_name(app, object))?;
    out.numbered(b".", u64::from(place))
}

/// Writes a mark behind a space.
pub fn spaced_mark(out: &mut Output, app: &App, mark: Mark) -> Result<(), NoMemory>
    ensures { OnOk result (out.new ≡ out.old ++ spaced_mark app.now mark) }
{
    out.put(b" ")?;
    mark_text(out, app, mark.object, mark.place)
}

/// Writes a value in quotation marks.
pub fn quoted(out: &mut Output, value: &[u8]) -> Result<(), NoMemory>
    ensures { OnOk result (out.new ≡ out.old ++ quoted value.now) }
{
    out.put(b"\"")?;
    out.escaped(value)?;
    out.put(b"\"")
}
