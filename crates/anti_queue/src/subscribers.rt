ghost use Rattle.std.specs.Prelude.{◌≡◌, ◌≤◌, List, [], ◌∷◌, ◌++◌, IfOk, OnOk};
ghost use Rattle.std.specs.VecDeque.{deque_capacity};
ghost use Rattle.anti_kind.specs.declared.entry.Entry.{Entry};
ghost use Rattle.anti_kind.specs.declared.store_kind.StoreKind.TheVariants.{Queue};
ghost use Rattle.anti_kind.specs.Stored.{row_of};
ghost use Rattle.anti_kind.specs.Store.{Store, next};
ghost use Rattle.anti_kind.specs.Objects.{store, IsLegal};
ghost use Rattle.anti_replicas.specs.Stores.{At};

use crate::free_list::FreeList;
use anti_ids::{Name, NoMemory};
use anti_kind::Sub;
use anti_replicas::Replicas;
use std::alloc::Global;

/// A subscription, with the messages that are free for it.
#[derive(Drop)]
pub(crate) struct Subscriber {
    pub(crate) sub: Sub,
    pub(crate) free: FreeList,
}

/// The subscriptions of a queue. The list of each has room for one message more than its channel has, so that only a write takes
/// memory.
#[derive(Drop)]
pub(crate) struct Subscribers {
    pub(crate) list: Vec<Subscriber>,
}

impl Subscriber {
    ghost use Rattle.anti_queue.specs.inner.Lists.{HasMoreRoom, HasSpare, is_free_to, IsSorted};

    // No message is free, and one has room.
    fn new(alloc: Global, sub: Sub) -> Result<Subscriber, NoMemory>
        ensures sub { IfOk result (λ m. m.sub ≡ sub) }
        ensures items { IfOk result (λ m. m.free.versions.items ≡ []) }
        ensures room { IfOk result (λ m. 1 ≤ deque_capacity m.free.versions) }
    {
        let mut free = FreeList::new(alloc);
        free.make_room(1)?;
        Ok(Subscriber { sub, free })
    }

    // Makes room for so many messages, if the subscription is to the channel.
    fn make_room(&mut self, channel: &Name, messages: usize) -> Result<(), NoMemory>
        ensures more { HasMoreRoom self.old self.new }
        ensures room { OnOk result (self.old.sub.channel ≡ channel.now
            → messages ≤ deque_capacity self.new.free.versions) }
    {
        if self.sub.channel == *channel {
            return self.free.make_room(messages);
        }
        Ok(())
    }

    // Whether the message is free for the subscription: it can be handed out, is one of the channel, and came to the region.
    fn is_free(&self, base: &Replicas, version: u64, can_go_out: bool) -> bool
        ensures { (s : Store) (h : List Entry) → At base.now s h
            → result ≡ is_free_to h version can_go_out self.now.sub }
    {
        if !can_go_out {
            return false;
        }
        if !base.is_cell(version, &self.sub.channel) {
            return false;
        }
        base.was_shipped(self.sub.region, version, 1)
    }

    // Puts the message into the list if it is free, and else takes it out.
    fn sort_in(&mut self, base: &Replicas, version: u64, can_go_out: bool)
        requires { HasSpare self.old }
        ensures sub { self.new.sub ≡ self.old.sub }
        ensures sorted { (s : Store) (h : List Entry) → At base.now s h
            → IsSorted h version can_go_out self.old self.new }
    {
        let is_free = self.is_free(base, version, can_go_out);
        self.free.set(version, is_free);
    }
}

impl Subscribers {
    ghost use Rattle.anti_queue.specs.inner.Lists.{subs_of, HaveFree, HaveRoom, HaveMoreRoom, HaveSpare, AreSorted};

    // These subscriptions, with no message free.
    pub(crate) fn new(alloc: Global, subs: &[Sub]) -> Result<Subscribers, NoMemory>
        ensures subs { IfOk result (λ m. subs_of m ≡ subs.now) }
        ensures free { (s : Store) → IfOk result (λ m. HaveFree s [] m.list.items) }
    {
        let mut subscribers = Subscribers {
            list: Vec::new(alloc),
        };
        for sub in subs {
            let subscriber = Subscriber::new(alloc, *sub)?;
            subscribers.add(subscriber)?;
        }
        Ok(subscribers)
    }

    fn add(&mut self, subscriber: Subscriber) -> Result<(), NoMemory>
        ensures { OnOk result (self.new.list.items ≡ self.old.list.items ++ subscriber ∷ []) }
    {
        match self.list.push(subscriber) {
            Ok(()) => Ok(()),
            Err(_) => Err(NoMemory),
        }
    }

    // The first version that is free for a subscription, 0 where there is none.
    pub(crate) fn first_free(&self, sub: u32) -> u64
        ensures { (s : Store) (h : List Entry) → s.kind ≡ Queue → s.subs ≡ subs_of self.now
            → IsLegal (store s) h → HaveFree s h self.now.list.items → next s h sub ≡ row_of h result }
    {
        match self.list.as_slice().get(sub as usize) {
            Some(subscriber) => subscriber.free.first(),
            None => 0,
        }
    }

    // Makes room for so many messages in the lists of the subscriptions to the channel.
    pub(crate) fn make_room(&mut self, channel: &Name, messages: usize) -> Result<(), NoMemory>
        ensures more { HaveMoreRoom self.old.list.items self.new.list.items }
        ensures room { OnOk result (HaveRoom channel.now messages self.new.list.items) }
    {
        for subscriber in self.list.iter_mut() {
            subscriber.make_room(channel, messages)?;
        }
        Ok(())
    }

    // Puts the message into the lists of the subscriptions that it is free for, and takes it out of the others.
    pub(crate) fn sort_in(&mut self, base: &Replicas, version: u64, can_go_out: bool)
        requires { HaveSpare self.old.list.items }
        ensures subs { subs_of self.new ≡ subs_of self.old }
        ensures sorted { (s : Store) (h : List Entry) → At base.now s h
            → AreSorted h version can_go_out self.old.list.items self.new.list.items }
    {
        for subscriber in self.list.iter_mut() {
            subscriber.sort_in(base, version, can_go_out);
        }
    }
}
