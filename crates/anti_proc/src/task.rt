ghost use Rattle.std.specs.Prelude.{ℕ, ◌≡◌, ◌≤◌, [], None, Some, Err, IfOk, length, option_map};
ghost use Rattle.anti_ids.specs.Ids.{with_ids};
ghost use Rattle.anti_app.specs.Running.{CanRun};
ghost use Rattle.anti_app.specs.Subs.{sub_on};
ghost use Rattle.anti_proc.specs.Local.{row_ids};
ghost use Rattle.anti_proc.specs.Tasks.{duty_to, fitting, is_for, role_at, role_in, role_of, role_on, role_with, task_for, task_of};

use crate::additions::add_row;
use crate::end::ProcFault;
use crate::foreign::{has_stores, stated};
use anti_app::{
    App, ObjectAt, SubDef, handler_number, has_handler, is_queue_at, object_at, region_of, sub_on,
};
use anti_baggage::Carried;
use anti_ids::{Copies, LineageRefused, MOST_DEPTH, MOST_IDS, Name, NoMemory, Value};
use anti_kind::{Call, Entry, Message, MessageKind, Reply, Row};
use std::alloc::Global;

/// What a process owes at its end.
#[derive(Clone, Copy)]
pub enum Duty {
    /// Nothing.
    Free,
    /// To an inbox the reply to the call of a number, in the name of the handler that was called.
    Answers {
        inbox: u32,
        number: u32,
        handler: Name,
    },
    /// To a queue the ack or the nack of the message of a version.
    Works {
        store: u32,
        version: u64,
    },
}

/// Which handler an entry starts: the number of its service and its own among those of the service, both counted from 0, the region of
/// the service, the depth, which is 0 unless a call or a send was taken, and what is owed at the end.
#[derive(Clone, Copy)]
pub struct Role {
    pub service: usize,
    pub handler: usize,
    pub region: u32,
    pub depth: u32,
    pub duty: Duty,
}

/// What an entry starts: a handler, its input, and the lineage that it carries at first. It is none where there would be more ids than a
/// lineage may have; such a process ends at once.
#[derive(Drop)]
pub struct Task {
    pub role: Role,
    pub input: Value,
    pub carried: Option<Carried>,
}

// What a process owes that takes a message of this kind and number from an inbox.
fn duty_to(kind: MessageKind, inbox: u32, number: u32, handler: Name) -> Duty
    ensures { result ≡ duty_to kind inbox number handler }
{
    match kind {
        MessageKind::Call => Duty::Answers {
            inbox,
            number,
            handler,
        },
        _ => Duty::Free,
    }
}

// Whether a message is for a handler of a service, and not too deep.
fn is_for(app: &App, service: usize, message: &Message) -> bool
    ensures { result ≡ is_for app.now service message.now }
{
    has_handler(app, service, &message.handler) && message.depth <= MOST_DEPTH
}

// A handler of a service, which runs in the service's region.
fn role_with(app: &App, service: usize, handler: usize, depth: u32, duty: Duty) -> Role
    ensures { result ≡ role_with app.now service handler depth duty }
{
    Role {
        service,
        handler,
        region: region_of(app, service),
        depth,
        duty,
    }
}

// The handler that a message names.
fn role_in(app: &App, inbox: u32, service: usize, number: u32, message: &Message) -> Role
    ensures { result ≡ role_in app.now inbox service number message.now }
{
    let handler = handler_number(app, service, &message.handler);
    let duty = duty_to(message.kind, inbox, number, message.handler);
    role_with(app, service, handler, message.depth, duty)
}

// The handler of a subscription. Its process owes the end of a message to a queue, and nothing to a topic.
fn role_on(app: &App, store: u32, version: u64, sub: &SubDef) -> Role
    ensures { result ≡ role_on app.now store version sub.now }
{
    let duty = if is_queue_at(app, store) {
        Duty::Works { store, version }
    } else {
        Duty::Free
    };
    role_with(app, sub.service as usize, sub.handler as usize, 0, duty)
}

// The handler that is started by what is pulled for the subscription at a position among those of a store.
fn role_pulled(app: &App, store: u32, position: u32, row: &Row) -> Option<Role>
    ensures { result ≡ option_map (role_on app.now store row.now.version) (sub_on app.now store position) }
{
    match sub_on(app, store, position as usize) {
        Some(sub) => Some(role_on(app, store, row.version, sub)),
        None => None,
    }
}

// The handler that a call on the inbox of a service starts by its reply.
fn role_at_inbox(app: &App, inbox: u32, service: usize, call: &Call, reply: &Reply) -> Option<Role>
    ensures { result ≡ role_at app.now inbox (ObjectAt.Inbox service) call.now reply.now }
{
    match (call, reply) {
        (Call::Take { .. }, Reply::Got { number, message })
            if is_for(app, service, message.get()) => {
            Some(role_in(app, inbox, service, *number, message.get()))
        }
        _ => None,
    }
}

// The handler that a call on a store starts by its reply.
fn role_at_store(app: &App, store: u32, call: &Call, reply: &Reply) -> Option<Role>
    ensures { result ≡ role_at app.now store (ObjectAt.Store store) call.now reply.now }
{
    match (call, reply) {
        (Call::Pull { sub }, Reply::Pulled(row)) => role_pulled(app, store, *sub, row.get()),
        (Call::Repull { sub, .. }, Reply::Pulled(row)) => role_pulled(app, store, *sub, row.get()),
        _ => None,
    }
}

/// Which handler an entry starts; `None` where it takes no message and no row, and where what it takes is for no handler.
pub fn role_of(app: &App, entry: &Entry) -> Option<Role>
    ensures { result ≡ role_of app.now entry.now }
{
    match object_at(app, entry.object)? {
        ObjectAt::Store(store) => role_at_store(app, store, &entry.call, &entry.reply),
        ObjectAt::Inbox(service) => {
            let service = service as usize;
            role_at_inbox(app, entry.object, service, &entry.call, &entry.reply)
        }
    }
}

// A lineage that fits, as each does.
fn fitting(carried: Carried) -> Option<Carried>
    ensures { result ≡ fitting carried }
{
    let short = carried.lineage().len() as usize <= MOST_IDS;
    prove!(short);
    Some(carried)
}

// What a row of a store brings, where it is no more than a lineage may have.
fn carried_of_row(alloc: Global, store: u32, row: &Row) -> Result<Option<Carried>, NoMemory>
    ensures { IfOk result (λ ids. ids ≡ fitting (with_ids (row_ids store row.now) [])) }
{
    let mut carried = Carried::root(alloc);
    match add_row(&mut carried, store, row) {
        Ok(()) => Ok(fitting(carried)),
        Err(LineageRefused::Full) => Ok(None),
        Err(LineageRefused::NoMemory) => Err(NoMemory),
    }
}

// The task of a handler that begins with a message.
fn task_of_message(
    alloc: Global,
    app: &App,
    role: Role,
    message: &Message,
) -> Result<Task, ProcFault>
    requires { CanRun app.now }
    ensures role { IfOk result (λ task. task.role ≡ role) }
    ensures task { IfOk result (λ task. (object number : ℕ)
        → task_for app.now object (Reply.Got number message.now) role ≡ Some task) }
    ensures foreign { result ≡ Err ProcFault.Foreign
        → (object number : ℕ) → task_for app.now object (Reply.Got number message.now) role ≡ None }
{
    let carried = stated(alloc, app, message)?;
    let input = message.value.copy(alloc)?;
    Ok(Task {
        role,
        input,
        carried: fitting(carried),
    })
}

// The task of a handler that begins with a row of a store.
fn task_of_row(
    alloc: Global,
    app: &App,
    role: Role,
    store: u32,
    row: &Row,
) -> Result<Task, ProcFault>
    ensures role { IfOk result (λ task. task.role ≡ role) }
    ensures task { IfOk result (λ task. task_for app.now store (Reply.Pulled row.now) role
        ≡ Some task) }
    ensures foreign { result ≡ Err ProcFault.Foreign
        → task_for app.now store (Reply.Pulled row.now) role ≡ None }
{
    if !has_stores(app, &row.lineage) {
        return Err(ProcFault::Foreign);
    }
    let carried = carried_of_row(alloc, store, row)?;
    let input = row.value.copy(alloc)?;
    Ok(Task {
        role,
        input,
        carried,
    })
}

impl Task {
    /// What an entry starts. `Foreign` comes exactly where it starts nothing.
    pub fn of(alloc: Global, app: &App, entry: &Entry) -> Result<Task, ProcFault>
        requires { CanRun app.now }
        ensures role { IfOk result (λ task. role_of app.now entry.now ≡ Some task.role) }
        ensures task { IfOk result (λ task. task_of app.now entry.now ≡ Some task) }
        ensures foreign { result ≡ Err ProcFault.Foreign → task_of app.now entry.now ≡ None }
    {
        let Some(role) = role_of(app, entry) else {
            return Err(ProcFault::Foreign);
        };
        match &entry.reply {
            Reply::Got { message, .. } => task_of_message(alloc, app, role, message.get()),
            Reply::Pulled(row) => task_of_row(alloc, app, role, entry.object, row.get()),
            _ => Err(ProcFault::Foreign),
        }
    }
}
