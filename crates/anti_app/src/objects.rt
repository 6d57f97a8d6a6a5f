ghost use Rattle.std.specs.Prelude.{◌≡◌, ℕ, ◌<◌, Some, length, option_map, slice_get, IfOk};
ghost use Rattle.std.specs.Option.{option_map_or};
ghost use Rattle.anti_lang.specs.Bodies.{block_of};
ghost use Rattle.anti_lang.specs.Program.{End};
ghost use Rattle.anti_lang.specs.Steps.{list_of, steps_of};
ghost use Rattle.anti_app.specs.Objects.{has_named, body_of, handler_number, has_handler, inbox_number, inbox_of, is_here, is_queue_at, is_store, object_at, object_count, region_of, store_names, store_number, stores_here};
ghost use Rattle.anti_app.specs.Running.{CanRun};
ghost use Rattle.anti_app.specs.Numbers.{service_at};

use crate::app::{App, HandlerDef, ServiceDef, StoreDef};
use crate::named::place_of;
use anti_ids::{Name, NoMemory};
use anti_lang::Statement;
use std::alloc::Global;

/// What the object of a number is.
#[derive(Clone, Copy)]
pub enum ObjectAt {
    /// The store of a number.
    Store(u32),
    /// The inbox of the service of a number.
    Inbox(u32),
}

/// How many objects an application has: its stores, and an inbox for each service.
pub fn object_count(app: &App) -> u32
    requires { CanRun app.now }
    ensures { result ≡ object_count app.now }
{
    (app.stores.len() + app.services.len()) as u32
}

/// What the object of a number is: first come the stores, and then the inboxes of the services, each in the order of the document. Past
/// the last of them there is none.
pub fn object_at(app: &App, number: u32) -> Option<ObjectAt>
    ensures at { result ≡ object_at app.now number }
    ensures store { (store : ℕ) → result ≡ Some (ObjectAt.Store store)
        → store < length app.now.stores.items }
    ensures inbox { (service : ℕ) → result ≡ Some (ObjectAt.Inbox service)
        → service < length app.now.services.items }
{
    let stores = app.stores.len();
    if (number as usize) < stores {
        return Some(ObjectAt::Store(number));
    }
    let service = number as usize - stores;
    if service < app.services.len() {
        Some(ObjectAt::Inbox(service as u32))
    } else {
        None
    }
}

/// Whether a number is that of a store.
pub fn is_store(app: &App, number: u32) -> bool
    ensures { result ≡ is_store app.now number }
{
    (number as usize) < app.stores.len()
}

/// Whether the store of a number is a queue.
pub fn is_queue_at(app: &App, store: u32) -> bool
    ensures { result ≡ is_queue_at app.now store }
{
    match app.stores.as_slice().get(store as usize) {
        Some(store) => store.kind.facts().tried,
        None => false,
    }
}

/// The number of the inbox of a service.
pub fn inbox_number(app: &App, service: u32) -> u32
    requires runs { CanRun app.now }
    requires named { service < length app.now.services.items }
    ensures { result ≡ inbox_number app.now service }
{
    app.stores.len() as u32 + service
}

// The item of a list at an index, where it is within.
fn item_at<T>(items: &[T], index: usize) -> Option<&T>
    ensures { option_map (λ item. item.now) result ≡ slice_get items.now index }
{
    items.get(index)
}

// The body of a handler of a service by its number; the empty one, where there is no such handler.
#[tactic(auto, using(crate::proofs::Blocks::list_again))]
fn body_among(service: &ServiceDef, handler: usize) -> &[Statement]
    ensures { steps_of result.now ≡ list_of
        (option_map_or (λ h. block_of h.body) (slice_get service.now.handlers.items handler) End) }
{
    match item_at(service.handlers.as_slice(), handler) {
        Some(handler) => handler.body.as_slice(),
        None => &[],
    }
}

/// The body of a handler by its number; the empty one, where there is no such handler.
pub fn body_of(app: &App, service: usize, handler: usize) -> &[Statement]
    ensures { steps_of result.now ≡ list_of (body_of app.now service handler) }
{
    match item_at(app.services.as_slice(), service) {
        Some(service) => body_among(service, handler),
        None => &[],
    }
}

/// The region of a service.
pub fn region_of(app: &App, service: usize) -> u32
    ensures { result ≡ region_of app.now service }
{
    match app.services.as_slice().get(service) {
        Some(service) => service.region,
        None => 0,
    }
}

/// The number of the handler with a name, in its service.
pub fn handler_number(app: &App, service: usize, name: &Name) -> usize
    ensures { result ≡ handler_number app.now service name.now }
{
    match app.services.as_slice().get(service) {
        Some(service) => place_of(service.handlers.as_slice(), name.bytes()),
        None => 0,
    }
}

// Whether one of these handlers has a name.
fn has_named(handlers: &[HandlerDef], name: &Name) -> bool
    ensures { result ≡ has_named name.now handlers.now }
{
    for handler in handlers {
        if handler.name == *name {
            return true;
        }
    }
    false
}

/// Whether a service has a handler with a name.
pub fn has_handler(app: &App, service: usize, name: &Name) -> bool
    ensures { result ≡ has_handler app.now service name.now }
{
    match item_at(app.services.as_slice(), service) {
        Some(service) => has_named(service.handlers.as_slice(), name),
        None => false,
    }
}

/// The service of an inbox.
pub fn service_at(app: &App, inbox: u32) -> usize
    ensures { result ≡ service_at app.now inbox }
{
    (inbox as usize).saturating_sub(app.stores.len())
}

/// The number of the inbox of the service with a name.
pub fn inbox_of(app: &App, name: &Name) -> u32
    requires { CanRun app.now }
    ensures { result ≡ inbox_of app.now name.now }
{
    (app.stores.len() + place_of(app.services.as_slice(), name.bytes())) as u32
}

/// The number of the store with a name.
pub fn store_number(app: &App, name: &Name) -> u32
    requires { CanRun app.now }
    ensures { result ≡ store_number app.now name.now }
{
    place_of(app.stores.as_slice(), name.bytes()) as u32
}

/// The names of the stores, by their numbers.
pub fn store_names(alloc: Global, app: &App) -> Result<Vec<Name>, NoMemory>
    ensures { IfOk result (λ names. names.items ≡ store_names app.now) }
{
    let mut names = Vec::with_capacity(alloc, app.stores.len())?;
    for store in app.stores.as_slice() {
        names.push(store.name)?;
    }
    Ok(names)
}

// Whether a store has a replica in a region.
fn is_here(region: u32, store: &StoreDef) -> bool
    ensures { result ≡ is_here region store.now }
{
    for replica in store.replicas.as_slice() {
        if *replica == region {
            return true;
        }
    }
    false
}

/// The numbers of the stores with a replica in a region, ascending.
pub fn stores_here(alloc: Global, app: &App, region: u32) -> Result<Vec<u32>, NoMemory>
    requires { CanRun app.now }
    ensures { IfOk result (λ here. here.items ≡ stores_here app.now region) }
{
    let mut here = Vec::with_capacity(alloc, app.stores.len())?;
    for (number, store) in app.stores.as_slice().iter().enumerate() {
        if is_here(region, store) {
            here.push(number as u32)?;
        }
    }
    Ok(here)
}
