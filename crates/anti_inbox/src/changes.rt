ghost use Rattle.std.specs.Prelude.{◌≡◌, ◌+◌, ◌-◌, ◌<◌, ◌≤◌, ◌^◌, not, ◌==◌, List, [], ◌∷◌, ◌++◌, length, filter, OnOk, OnErr, slice_index_or, slice_set};
ghost use Rattle.anti_kind.specs.declared.entry.Entry.{Entry};
ghost use Rattle.anti_kind.specs.Inbox.{is_taken};
ghost use Rattle.anti_inbox.specs.declared.inbox.Fate.{Fate};
ghost use Rattle.anti_inbox.specs.inner.Fates.{untouched, taken, reposted, answered, heard};

use crate::inbox::{Fate, Inbox};
use anti_ids::NoMemory;
use anti_kind::{Handle, Message};

impl Inbox {
    ghost use Rattle.anti_kind.specs.declared.call.Call.TheVariants.{Take, Repost};
    ghost use Rattle.anti_kind.specs.Machines.{MayMake};
    ghost use Rattle.anti_inbox.specs.inner.Inboxes.{start_of, At, InboxStands, Turns};

    // Adds a message, with a delivery that is free. All of it is added or nothing.
    pub(crate) fn post(&mut self, message: Handle<Message>) -> Result<(), NoMemory>
        requires messages { length self.old.messages.items + 1 < 2 ^ 32 }
        requires deliveries { self.old.free.next < 2 ^ 32 - 1 }
        ensures ok { OnOk result (Turns self.old self.new (self.old.messages.items ++ message ∷ []) (self.old.fates.items ++ untouched ∷ [])
            (self.old.free.items ++ (length self.old.messages.items + 1) ∷ [])) }
        ensures err { OnErr result (Turns self.old self.new self.old.messages.items self.old.fates.items self.old.free.items) }
    {
        let number = self.messages.len() as u32 + 1;
        self.messages.reserve(1)?;
        self.fates.reserve(1)?;
        self.free.push(number)?;
        let fate = Fate {
            taken: false,
            reposted: false,
            reply: None,
            heard: false,
        };
        match self.fates.push(fate) {
            Ok(()) => {}
            Err(_) => unreachable!(), // room was made
        }
        self.messages.put(message);
        Ok(())
    }

    // Takes the message of the nth free delivery, counted from 1, of which no delivery is free any more.
    pub(crate) fn take(&mut self, nth: u32)
        requires { MayMake (start_of self.old) (InboxStands self.old) (Take nth) }
        ensures { (d : Fate) → let number = slice_index_or self.old.free.items (nth - 1) 0 in
            Turns self.old self.new self.old.messages.items
            (slice_set self.old.fates.items (number - 1) (taken (slice_index_or self.old.fates.items (number - 1) d)))
            (filter (λ n. not (n == number)) self.old.free.items) }
    {
        let number = self.free.remove(nth - 1);
        let fate = &mut self.fates[number as usize - 1];
        fate.taken = true;
        // Only a message that was delivered again has further deliveries.
        if fate.reposted {
            self.free.remove_all(number);
        }
    }

    // Adds a free delivery of a message, unless the message was taken.
    fn deliver(&mut self, number: u32) -> Result<(), NoMemory>
        requires { self.old.free.next < 2 ^ 32 - 1 }
        ensures ok { (h : List Entry) → At self.old h → OnOk result (Turns self.old self.new self.old.messages.items self.old.fates.items
            (self.old.free.items ++ filter (λ n. not (is_taken h n)) (number ∷ []))) }
        ensures err { (h : List Entry) → At self.old h → OnErr result (Turns self.old self.new self.old.messages.items self.old.fates.items self.old.free.items) }
    {
        if self.is_taken(number) {
            return Ok(());
        }
        self.free.push(number)?;
        Ok(())
    }

    // Adds a delivery of a message, which is free unless the message was taken.
    pub(crate) fn repost(&mut self, number: u32) -> Result<(), NoMemory>
        requires { MayMake (start_of self.old) (InboxStands self.old) (Repost number) }
        ensures ok { (h : List Entry) (d : Fate) → At self.old h → OnOk result (Turns self.old self.new self.old.messages.items
            (slice_set self.old.fates.items (number - 1) (reposted (slice_index_or self.old.fates.items (number - 1) d)))
            (self.old.free.items ++ filter (λ n. not (is_taken h n)) (number ∷ []))) }
        ensures err { (h : List Entry) → At self.old h → OnErr result (Turns self.old self.new self.old.messages.items self.old.fates.items self.old.free.items) }
    {
        self.deliver(number)?;
        self.fates[number as usize - 1].reposted = true;
        Ok(())
    }

    // Keeps the reply to a call.
    pub(crate) fn answer(&mut self, number: u32, reply: Handle<Message>)
        requires some { 1 ≤ number }
        requires within { number ≤ length self.old.fates.items }
        ensures { (d : Fate) → Turns self.old self.new self.old.messages.items
            (slice_set self.old.fates.items (number - 1) (answered reply (slice_index_or self.old.fates.items (number - 1) d)))
            self.old.free.items }
    {
        self.fates[number as usize - 1].reply = Some(reply);
    }

    // Marks the reply to a call as taken.
    pub(crate) fn hear(&mut self, number: u32)
        requires some { 1 ≤ number }
        requires within { number ≤ length self.old.fates.items }
        ensures { (d : Fate) → Turns self.old self.new self.old.messages.items
            (slice_set self.old.fates.items (number - 1) (heard (slice_index_or self.old.fates.items (number - 1) d)))
            self.old.free.items }
    {
        self.fates[number as usize - 1].heard = true;
    }
}
