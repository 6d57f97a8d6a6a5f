ghost use Rattle.anti_kind.specs.Kinds.{facts_of};
ghost use Rattle.std.specs.Prelude.{◌≡◌, ◌++◌, ◌∷◌, [], None, Some, IfOk, MatchOption, OnOk, IsTrue, true};
ghost use Rattle.anti_ids.specs.List.{plain};
ghost use Rattle.anti_app.specs.Sound.{is_sound};
ghost use Rattle.anti_object.specs.Starts.{message_of, message_to, requests_to, start_of};
ghost use Rattle.anti_kind.specs.Starts.{IsStart};
ghost use Rattle.anti_object.specs.Standing.{IsNew, IsNewStore, start_with};

use crate::object::Object;
use anti_app::{App, HandlerDef, ObjectAt, RequestDef, ServiceDef, StoreDef, object_at, subs_on};
use anti_baggage::Baggage;
use anti_blob::Blob;
use anti_cache::CachedKv;
use anti_ids::{Bytes, Copies, List, NoMemory};
use anti_inbox::Inbox;
use anti_kind::{Handle, Message, MessageKind, Messages, StoreKind, Sub};
use anti_kv::Kv;
use anti_queue::Queue;
use anti_table::Table;
use anti_topic::Topic;
use std::alloc::Global;

impl Object {
    /// The object of an application with a number, on which nothing has happened yet. Past the last of them there is none.
    pub fn of(alloc: Global, app: &App, number: u32) -> Result<Option<Object>, NoMemory>
        requires { IsTrue (is_sound app.now) }
        ensures { IfOk result (λ o. MatchOption o (start_of app.now number ≡ None) (IsNew app.now number)) }
    {
        match object_at(app, number) {
            Some(ObjectAt::Store(store)) => {
                let subs = subs_on(alloc, app, store)?;
                let object = store_of(alloc, store, app.stores.at(store as usize), &subs)?;
                Ok(Some(object))
            }
            Some(ObjectAt::Inbox(service)) => {
                let handlers = app.services.at(service as usize);
                let requests = requests_to(alloc, app, handlers, service)?;
                let inbox = Inbox::new(alloc, requests)?;
                Ok(Some(Object::Inbox(inbox)))
            }
            None => Ok(None),
        }
    }
}

// The store of a number, with these subscriptions. A store whose keys are read has none.
fn store_of(alloc: Global, number: u32, store: &StoreDef, subs: &[Sub]) -> Result<Object, NoMemory>
    requires start { IsStart (start_with number store.now subs.now) }
    requires keyed { (facts_of store.now.kind).keyed ≡ true → subs.now ≡ [] }
    ensures { IfOk result (IsNewStore number store.now subs.now) }
{
    let regions = store.replicas.as_slice();
    match store.kind {
        StoreKind::Kv => {
            let kv = Kv::new(alloc, number, regions)?;
            Ok(Object::Kv(kv))
        }
        StoreKind::Table => {
            let table = Table::new(alloc, number, regions)?;
            Ok(Object::Table(table))
        }
        StoreKind::Blob => {
            let blob = Blob::new(alloc, number, regions)?;
            Ok(Object::Blob(blob))
        }
        StoreKind::Queue => {
            let queue = Queue::new(alloc, number, regions, subs, store.tries)?;
            Ok(Object::Queue(queue))
        }
        StoreKind::Topic => {
            let topic = Topic::new(alloc, number, regions, subs)?;
            Ok(Object::Topic(topic))
        }
        StoreKind::Cached => {
            let cached = CachedKv::new(alloc, number, regions, store.room)?;
            Ok(Object::Cached(cached))
        }
    }
}

// The messages of the requests to a service, in the order of the application.
fn requests_to(
    alloc: Global,
    app: &App,
    service: &ServiceDef,
    number: u32,
) -> Result<Messages, NoMemory>
    ensures { IfOk result (λ ms. ms ≡ plain (requests_to app.now service.now number)) }
{
    let mut messages = List::new(alloc);
    for request in app.requests.as_slice() {
        add_request(alloc, &mut messages, service, number, request)?;
    }
    Ok(messages)
}

// Adds the message of a request, where it goes to this service and to a handler that is there.
fn add_request(
    alloc: Global,
    messages: &mut Messages,
    service: &ServiceDef,
    number: u32,
    request: &RequestDef,
) -> Result<(), NoMemory>
    requires { messages.old.spare ≡ 0 }
    ensures { OnOk result (messages.new ≡ plain (messages.old.items ++ message_of service.now number request.now)) }
{
    if request.service != number {
        return Ok(());
    }
    let handlers = service.handlers.as_slice();
    let Some(handler) = handlers.get(request.handler as usize) else {
        return Ok(());
    };
    messages.reserve(1)?;
    messages.put(message_to(alloc, request, handler)?);
    Ok(())
}

// The message of a request to a handler.
fn message_to(
    alloc: Global,
    request: &RequestDef,
    handler: &HandlerDef,
) -> Result<Handle<Message>, NoMemory>
    ensures { IfOk result (λ m. m ∷ [] ≡ message_to request.now (Some handler.now)) }
{
    let message = Message {
        kind: MessageKind::Request,
        to: 0,
        depth: 0,
        handler: handler.name,
        value: request.value.copy(alloc)?,
        baggage: Baggage::from_text(empty_lineage(alloc)?),
    };
    Handle::new(alloc, message)
}

// The text of the empty lineage.
fn empty_lineage(alloc: Global) -> Result<Bytes, NoMemory>
    ensures { IfOk result (λ b. b ≡ plain (49 ∷ 59 ∷ [])) }
{
    let mut text = Bytes::new(alloc);
    text.append(b"1;")?;
    Ok(text)
}
