ghost use Rattle.std.specs.Prelude.{◌≡◌, ◌+◌, ◌-◌, ◌<◌, ◌≤◌, true, List, [], ◌∷◌, ◌++◌, ◌⊎◌, length, OnOk, IfSome, IfNone, slice_get};
ghost use Rattle.std.specs.Vec.{vec_len, vec_capacity};
ghost use Rattle.anti_kind.specs.Kinds.{facts_of};
ghost use Rattle.anti_kind.specs.declared.entry.Entry.{Entry};
ghost use Rattle.anti_kind.specs.Stored.{rows};
ghost use Rattle.anti_kind.specs.Store.{Store, is_out};
ghost use Rattle.anti_kind.specs.Objects.{store, IsLegal};

use anti_ids::NoMemory;
use std::alloc::Global;

/// Whether a message is out, whether it is done, and how many times it was pulled.
#[derive(Clone, Copy)]
pub(crate) struct MessageState {
    pub(crate) out: bool,
    pub(crate) acked: bool,
    pub(crate) pulls: u8,
}

/// The states of a queue's messages, in the order of their versions.
#[derive(Drop)]
pub(crate) struct MessageStates {
    // that of version v at the index v - 1
    pub(crate) list: Vec<MessageState>,
    // how many messages are out
    pub(crate) out: u32,
}

impl MessageStates {
    ghost use Rattle.anti_queue.specs.inner.Marks.{AreMessages, can_go_out, new_message, Changes, pulled, done, given_back, Pullable, Settleable};

    // No message was written.
    pub(crate) fn new(alloc: Global) -> MessageStates
        ensures { AreMessages result [] }
    {
        MessageStates {
            list: Vec::new(alloc),
            out: 0,
        }
    }

    pub(crate) fn out(&self) -> u32
        ensures { result ≡ self.now.out }
    {
        self.out
    }

    // That of the message of a version.
    fn at(&self, version: u64) -> Option<&MessageState>
        ensures first { IfSome result (λ message. 1 ≤ version) }
        ensures message { IfSome result (λ message.
            slice_get self.now.list.items (version - 1) ≡ Some message.now) }
        ensures none { IfNone result ((version ≡ 0) ⊎ (length self.now.list.items < version)) }
    {
        if version == 0 {
            return None;
        }
        self.list.as_slice().get((version - 1) as usize)
    }

    pub(crate) fn is_out(&self, version: u64) -> bool
        ensures { (s : Store) (h : List Entry) → (facts_of s.kind).tried ≡ true → IsLegal (store s) h
            → AreMessages self.now h → result ≡ is_out h version }
    {
        match self.at(version) {
            Some(message) => message.out,
            None => false,
        }
    }

    // Whether the message can be handed out: it is not out, not done, and was not pulled so many times.
    pub(crate) fn can_go_out(&self, version: u64, tries: u32) -> bool
        ensures { (h : List Entry) → AreMessages self.now h → 1 ≤ version → version ≤ length (rows h)
            → result ≡ can_go_out h version tries }
    {
        match self.at(version) {
            Some(message) => !message.out && (!message.acked && u32::from(message.pulls) < tries),
            None => false,
        }
    }

    // Makes room for one message more.
    pub(crate) fn make_room(&mut self) -> Result<(), NoMemory>
        ensures messages { (h : List Entry) → AreMessages self.old h → AreMessages self.new h }
        ensures room { OnOk result (vec_len self.new.list < vec_capacity self.new.list) }
    {
        match self.list.reserve(1) {
            Ok(()) => Ok(()),
            Err(_) => Err(NoMemory),
        }
    }

    // Adds that of a message that is written.
    pub(crate) fn add(&mut self)
        requires { vec_len self.old.list < vec_capacity self.old.list }
        ensures messages { self.new.list.items ≡ self.old.list.items ++ new_message ∷ [] }
        ensures out { self.new.out ≡ self.old.out }
    {
        self.list.push_reserved(MessageState {
            out: false,
            acked: false,
            pulls: 0,
        });
    }

    // Hands the message out.
    pub(crate) fn pull(&mut self, version: u64)
        requires { Pullable self.old version }
        ensures message { Changes pulled version self.old self.new }
        ensures out { self.new.out ≡ self.old.out + 1 }
    {
        let message = &mut self.list[(version - 1) as usize];
        message.out = true;
        message.pulls += 1;
        self.out += 1;
    }

    // The message is done.
    pub(crate) fn ack(&mut self, version: u64)
        requires { Settleable self.old version }
        ensures message { Changes done version self.old self.new }
        ensures out { self.new.out + 1 ≡ self.old.out }
    {
        let message = &mut self.list[(version - 1) as usize];
        message.out = false;
        message.acked = true;
        self.out -= 1;
    }

    // The message is given back.
    pub(crate) fn nack(&mut self, version: u64)
        requires { Settleable self.old version }
        ensures message { Changes given_back version self.old self.new }
        ensures out { self.new.out + 1 ≡ self.old.out }
    {
        self.list[(version - 1) as usize].out = false;
        self.out -= 1;
    }
}
