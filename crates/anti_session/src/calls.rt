ghost use Rattle.std.specs.Prelude.{◌≡◌};
ghost use Rattle.anti_session.specs.Members.{answers, answers_number, hears, hears_number, is_call, is_reply, process_of};
ghost use Rattle.anti_session.specs.Sessions.{is_request, takes_request};
ghost use Rattle.anti_session.specs.inner.Calls.{call_of, taken_of};

use anti_kind::{Actor, Birth, Call, Entry, MessageKind, Reply};

fn is_request(kind: MessageKind) -> bool
    ensures { result ≡ is_request kind }
{
    match kind {
        MessageKind::Request => true,
        _ => false,
    }
}

fn is_call(kind: MessageKind) -> bool
    ensures { result ≡ is_call kind }
{
    match kind {
        MessageKind::Call => true,
        _ => false,
    }
}

fn is_reply(kind: MessageKind) -> bool
    ensures { result ≡ is_reply kind }
{
    match kind {
        MessageKind::Reply => true,
        _ => false,
    }
}

/// The process that an actor is, where it is one.
pub fn process_of(actor: Actor) -> Option<Birth>
    ensures { result ≡ process_of actor }
{
    match actor {
        Actor::Process(birth) => Some(birth),
        _ => None,
    }
}

/// The call that an entry posted, where it did: its inbox, and the number that it got there.
pub fn call_of(entry: &Entry) -> Option<(u32, u32)>
    ensures { result ≡ call_of entry.now }
{
    match &entry.call {
        Call::Post { message } => match &entry.reply {
            Reply::Posted(number) => {
                if is_call(message.get().kind) {
                    Some((entry.object, *number))
                } else {
                    None
                }
            }
            _ => None,
        },
        _ => None,
    }
}

/// The message that an entry took, where it did: its inbox, and its number there.
pub fn taken_of(entry: &Entry) -> Option<(u32, u32)>
    ensures { result ≡ taken_of entry.now }
{
    match &entry.call {
        Call::Take { .. } => match &entry.reply {
            Reply::Got { number, .. } => Some((entry.object, *number)),
            _ => None,
        },
        _ => None,
    }
}

/// Whether a request is taken.
pub fn takes_request(call: &Call, reply: &Reply) -> bool
    ensures { result ≡ takes_request call.now reply.now }
{
    match call {
        Call::Take { .. } => match reply {
            Reply::Got { message, .. } => is_request(message.get().kind),
            _ => false,
        },
        _ => false,
    }
}

// Whether the reply to the call of a number is posted.
fn answers_number(number: u32, call: &Call, reply: &Reply) -> bool
    ensures { result ≡ answers_number number call.now reply.now }
{
    match call {
        Call::Post { message } => match reply {
            Reply::Done => is_reply(message.get().kind) && message.get().to == number,
            _ => false,
        },
        _ => false,
    }
}

// Whether the reply to the call of a number is taken.
fn hears_number(number: u32, call: &Call) -> bool
    ensures { result ≡ hears_number number call.now }
{
    match call {
        Call::TakeReply { number: heard } => *heard == number,
        _ => false,
    }
}

/// Whether an entry posts the reply to the call of a number at an inbox.
pub fn answers(inbox: u32, number: u32, entry: &Entry) -> bool
    ensures { result ≡ answers inbox number entry.now }
{
    entry.object == inbox && answers_number(number, &entry.call, &entry.reply)
}

/// Whether an entry takes the reply to the call of a number at an inbox.
pub fn hears(inbox: u32, number: u32, entry: &Entry) -> bool
    ensures { result ≡ hears inbox number entry.now }
{
    entry.object == inbox && hears_number(number, &entry.call)
}
