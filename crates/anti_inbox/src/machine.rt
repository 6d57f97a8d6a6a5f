ghost use Rattle.std.specs.Prelude.{◌≡◌, ◌∷◌, ◌++◌, [], List, IfOk, OnOk, OnErr, slice_get};
ghost use Rattle.anti_kind.specs.declared.entry.Entry.{Entry};
ghost use Rattle.anti_kind.specs.declared.call.Call.TheVariants.{Post, Take};
ghost use Rattle.anti_kind.specs.Inbox.{free, got_of, handed, messages, numbered, post_ready, replies};
ghost use Rattle.anti_kind.specs.Objects.{Follows};
ghost use Rattle.anti_kind.specs.Machines.{MayMake};

use crate::inbox::Inbox;
use anti_ids::NoMemory;
use anti_kind::{Awaited, Call, Handle, Machine, Message, MessageKind, Reply};

impl Inbox {
    ghost use Rattle.anti_inbox.specs.inner.Inboxes.{start_of, requests_of, At, InboxStands, Keeps, Knows};

    // Whether a message can be posted.
    fn can_post(&self, message: &Message) -> bool
        ensures { (h : List Entry) → At self.now h → result ≡ post_ready (requests_of self.now) h message.now.kind message.now.to }
    {
        match message.kind {
            MessageKind::Request => false,
            MessageKind::Call => true,
            MessageKind::Send => true,
            MessageKind::Reply => self.can_answer(message.to),
        }
    }

    // The message of the nth free delivery, counted from 1.
    fn handed(&self, nth: u32) -> Result<Reply, NoMemory>
        requires { MayMake (start_of self.now) (InboxStands self.now) (Take nth) }
        ensures { (h : List Entry) → At self.now h
            → IfOk result (λ r. r ≡ handed (messages (requests_of self.now) h) (numbered (free (requests_of self.now) h) nth)) }
    {
        let number = self.free.at(nth - 1);
        let message = self.messages.at(number as usize - 1).share()?;
        Ok(Reply::Got { number, message })
    }

    // The reply to the call with a number.
    fn replied(&self, number: u32) -> Result<Reply, NoMemory>
        ensures { (h : List Entry) → At self.now h → IfOk result (λ r. r ≡ got_of number (slice_get (replies h number) 0)) }
    {
        match self.reply(number) {
            Some(message) => {
                let message = message.share()?;
                Ok(Reply::Got { number, message })
            }
            None => Ok(Reply::Done),
        }
    }

    // Notes a message that is posted, and keeps it.
    fn note_post(&mut self, message: &Message, kept: Handle<Message>) -> Result<(), NoMemory>
        requires may { MayMake (start_of self.old) (InboxStands self.old) (Post message.now) }
        requires same { kept ≡ message.now }
        ensures ok { (h : List Entry) (e : Entry) → At self.old h → Follows (start_of self.old) h e → e.call ≡ Post message.now
            → OnOk result (Knows self.new (h ++ e ∷ [])) }
        ensures err { (h : List Entry) → Knows self.old h → OnErr result (Knows self.new h) }
        ensures keeps { Keeps self.old self.new }
    {
        match message.kind {
            MessageKind::Reply => {
                self.answer(message.to, kept);
                Ok(())
            }
            _ => self.post(kept),
        }
    }

    // Notes what a call does to the messages and their deliveries.
    fn note(&mut self, c: &Call) -> Result<(), NoMemory>
        requires { MayMake (start_of self.old) (InboxStands self.old) c.now }
        ensures ok { (h : List Entry) (e : Entry) → At self.old h → Follows (start_of self.old) h e → e.call ≡ c.now
            → OnOk result (Knows self.new (h ++ e ∷ [])) }
        ensures err { (h : List Entry) → Knows self.old h → OnErr result (Knows self.new h) }
        ensures keeps { Keeps self.old self.new }
    {
        match c {
            Call::Post { message } => self.note_post(message.get(), message.share()?),
            Call::Take { nth } => {
                self.take(*nth);
                Ok(())
            }
            Call::Repost { number } => self.repost(*number),
            Call::TakeReply { number } => {
                self.hear(*number);
                Ok(())
            }
            _ => unreachable!(), // no other call is ready, by the table
        }
    }
}

/// The table of an inbox: `Post`, `Take`, `Repost` and `TakeReply`. No other call is ever ready.
impl Machine for Inbox {
    ghost use Rattle.anti_inbox.specs.inner.Inboxes.{start_of, InboxStands};

    ghost start = { start_of };

    ghost Stands = { InboxStands };

    fn ready(&self, c: &Call) -> bool {
        match c {
            Call::Post { message } => self.can_post(message.get()),
            Call::Take { nth } => *nth >= 1 && *nth <= self.free.len(),
            Call::Repost { number } => *number >= 1 && *number as usize <= self.messages.len(),
            Call::TakeReply { number } => self.has_reply(*number) && !self.is_heard(*number),
            _ => false,
        }
    }

    fn need(&self, c: &Call) -> u32 {
        match c {
            Call::Post { message } => match message.get().kind {
                MessageKind::Call => 4,
                MessageKind::Send => 2,
                _ => 0,
            },
            Call::Take { .. } => 0,
            Call::TakeReply { .. } => 0,
            _ => 1,
        }
    }

    fn held(&self) -> u32 {
        self.held
    }

    fn owed(&self) -> u32 {
        self.owed
    }

    fn upto(&self, _region: u32) -> u64 {
        0
    }

    fn next_ship(&self, _region: u32) -> Option<(u64, u32)> {
        None
    }

    fn awaits(&self, c: &Call) -> Option<Awaited> {
        match c {
            Call::Take { .. } => {
                if self.ready(c) {
                    return None;
                }
                Some(Awaited::Delivery)
            }
            Call::TakeReply { number } => {
                if self.has_reply(*number) {
                    return None;
                }
                Some(Awaited::Reply(*number))
            }
            _ => None,
        }
    }

    fn due(&self, c: &Call) -> Result<Reply, NoMemory> {
        match c {
            Call::Post { message } => match message.get().kind {
                MessageKind::Reply => Ok(Reply::Done),
                _ => Ok(Reply::Posted(self.messages.len() as u32 + 1)),
            },
            Call::Take { nth } => self.handed(*nth),
            Call::TakeReply { number } => self.replied(*number),
            _ => Ok(Reply::Done),
        }
    }

    fn apply(&mut self, c: &Call, _reply: &Reply) -> Result<(), NoMemory> {
        let need = self.need(c);
        self.note(c)?;
        self.held += 1;
        self.owed = self.owed + need - 1;
        Ok(())
    }
}
