ghost use Rattle.std.specs.Prelude.{◌≡◌, ◌-◌, ◌<◌, ◌^◌, List, [], map, IfOk, IfNone, IfSome, MatchOption, None, Some, slice_get};
ghost use Rattle.std.specs.List.{range_with_len};
ghost use Rattle.anti_kind.specs.declared.entry.Entry.{Entry};
ghost use Rattle.anti_kind.specs.Inbox.{messages, numbered, is_call_message, is_taken, replies, has_reply, reply_is_taken, post_ready};
ghost use Rattle.anti_kind.specs.Objects.{inbox};
ghost use Rattle.anti_kind.specs.Starts.{IsStart};
ghost use Rattle.anti_inbox.specs.inner.Fates.{fate_of, untouched};
ghost use Rattle.anti_flight.specs.Queued.{queued};

use crate::deliveries::Deliveries;
use anti_ids::NoMemory;
use anti_kind::{Handle, Message, MessageKind, Messages};
use std::alloc::Global;

/// What became of a message: whether it was taken, whether it was delivered again, and, where it is a call, its reply and whether
/// that was taken.
#[derive(Drop)]
pub(crate) struct Fate {
    pub(crate) taken: bool,
    pub(crate) reposted: bool,
    pub(crate) reply: Option<Handle<Message>>,
    pub(crate) heard: bool,
}

/// The messages of a service, of which the first are its requests, what became of each, and the free deliveries in their order. The
/// message numbered n stands at the index n - 1.
pub struct Inbox {
    pub(crate) requests: usize,
    pub(crate) messages: Messages,
    pub(crate) fates: Vec<Fate>,
    pub(crate) free: Deliveries,
    pub(crate) held: u32,
    pub(crate) owed: u32,
    pub(crate) alloc: Global,
}

// By hand, so that no caller sees the fields.
impl Drop for Inbox {
    fn drop(self) {
        let Inbox {
            requests: _,
            messages,
            fates,
            free,
            held: _,
            owed: _,
            alloc: _,
        } = self;
        drop(messages);
        drop(fates);
        drop(free);
    }
}

impl Inbox {
    ghost use Rattle.anti_inbox.specs.inner.Inboxes.{start_of, requests_of, InboxStands, At};

    /// The inbox with these requests, on which nothing has happened yet.
    pub fn new(alloc: Global, requests: Messages) -> Result<Inbox, NoMemory>
        requires { IsStart (inbox requests.items) }
        ensures start { IfOk result (λ m. start_of m ≡ inbox requests.items) }
        ensures stands { IfOk result (λ m. InboxStands m []) }
    {
        let count = requests.len();
        let fates = fates(alloc, count)?;
        let free = deliveries(alloc, count)?;
        Ok(Inbox {
            requests: count,
            messages: requests,
            fates,
            free,
            held: 0,
            owed: count as u32,
            alloc,
        })
    }

    // What became of the message with a number. Where there is none, nothing became of it.
    pub(crate) fn fate(&self, number: u32) -> Option<&Fate>
        ensures some { (h : List Entry) → At self.now h → IfSome result (λ f. f.now ≡ fate_of h number) }
        ensures none { (h : List Entry) → At self.now h → IfNone result (fate_of h number ≡ untouched) }
    {
        if number == 0 {
            return None;
        }
        let fate = self.fates.as_slice().get(number as usize - 1)?;
        Some(fate)
    }

    // Whether the message with a number is a call.
    pub(crate) fn is_call(&self, number: u32) -> bool
        ensures { (h : List Entry) → At self.now h → result ≡ is_call_message (numbered (messages (requests_of self.now) h) number) }
    {
        if number == 0 {
            return false;
        }
        match self.messages.as_slice().get(number as usize - 1) {
            Some(message) => message.get().kind == MessageKind::Call,
            None => false,
        }
    }

    // Whether the message with a number was taken.
    pub(crate) fn is_taken(&self, number: u32) -> bool
        ensures { (h : List Entry) → At self.now h → result ≡ is_taken h number }
    {
        match self.fate(number) {
            Some(fate) => fate.taken,
            None => false,
        }
    }

    // The reply to the call with a number.
    pub(crate) fn reply(&self, number: u32) -> Option<&Handle<Message>>
        ensures { (h : List Entry) → At self.now h
            → MatchOption result (slice_get (replies h number) 0 ≡ None) (λ m. slice_get (replies h number) 0 ≡ Some m.now) }
    {
        match self.fate(number) {
            Some(fate) => fate.reply.as_ref(),
            None => None,
        }
    }

    // Whether a reply was posted to the call with a number.
    pub(crate) fn has_reply(&self, number: u32) -> bool
        ensures { (h : List Entry) → At self.now h → result ≡ has_reply h number }
    {
        self.reply(number).is_some()
    }

    // Whether the reply to the call with a number was taken.
    pub(crate) fn is_heard(&self, number: u32) -> bool
        ensures { (h : List Entry) → At self.now h → result ≡ reply_is_taken h number }
    {
        match self.fate(number) {
            Some(fate) => fate.heard,
            None => false,
        }
    }

    // Whether a reply to the message with a number can be posted: it is a call that was taken and not answered.
    pub(crate) fn can_answer(&self, number: u32) -> bool
        ensures { (h : List Entry) → At self.now h → result ≡ post_ready (requests_of self.now) h MessageKind.Reply number }
    {
        if !self.is_call(number) {
            return false;
        }
        if !self.is_taken(number) {
            return false;
        }
        !self.has_reply(number)
    }
}

// The fates of so many messages, to which nothing has happened.
fn fates(alloc: Global, count: usize) -> Result<Vec<Fate>, NoMemory>
    ensures { IfOk result (λ v. v.items ≡ map (fate_of []) (range_with_len 1 count)) }
{
    let mut fates = Vec::new(alloc);
    for _before in 0..count {
        let fate = Fate {
            taken: false,
            reposted: false,
            reply: None,
            heard: false,
        };
        fates.push(fate)?;
    }
    Ok(fates)
}

// The deliveries of so many messages, one of each.
fn deliveries(alloc: Global, count: usize) -> Result<Deliveries, NoMemory>
    requires { count < 2 ^ 32 - 1 }
    ensures { IfOk result (λ d. d ≡ queued (range_with_len 1 count) count) }
{
    let mut deliveries = Deliveries::new(alloc);
    for before in 0..count {
        deliveries.push(before as u32 + 1)?;
    }
    Ok(deliveries)
}
