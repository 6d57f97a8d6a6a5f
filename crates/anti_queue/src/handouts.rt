ghost use Rattle.std.specs.Prelude.{◌≡◌, ◌≤◌, List, [], ◌∷◌, ◌++◌, length};
ghost use Rattle.anti_kind.specs.declared.call.Call.TheVariants.{Ship, Pull, Ack, Nack};
ghost use Rattle.anti_kind.specs.declared.entry.Entry.{Entry};
ghost use Rattle.anti_kind.specs.Stored.{rows, row_of};
ghost use Rattle.anti_kind.specs.Store.{Store, next};
ghost use Rattle.anti_kind.specs.Objects.{Follows};
ghost use Rattle.anti_kind.specs.Machines.{StandsFor};
ghost use Rattle.anti_replicas.specs.Stores.{At};
ghost use Rattle.anti_queue.specs.inner.Marks.{AreMessages, can_go_out};
ghost use Rattle.anti_queue.specs.inner.Lists.{subs_of, HaveSpare, AreSorted};

use crate::queue_store::Queue;

impl Queue {
    ghost use Rattle.anti_queue.specs.QueueStates.{its_store, its_start, QueueStands, IsQuiet, MayCall, Makes};

    // The version that the subscription pulls next, 0 where there is none.
    pub(crate) fn next_version(&self, sub: u32) -> u64
        ensures { (h : List Entry) → StandsFor (its_start self.now) (QueueStands self.now) h
            → next (its_store self.now) h sub ≡ row_of h result }
    {
        self.subscribers.first_free(sub)
    }

    // Puts a message into the lists of the subscriptions that it is free for, and takes it out of the others. It takes no memory.
    fn sort_in(&mut self, version: u64)
        requires { HaveSpare self.old.subscribers.list.items }
        ensures others { self.new ≡ record self.old { subscribers = self.new.subscribers } }
        ensures subs { subs_of self.new.subscribers ≡ subs_of self.old.subscribers }
        ensures sorted { (s : Store) (h : List Entry) → At self.old.base s h
            → AreMessages self.old.messages h → 1 ≤ version → version ≤ length (rows h)
            → AreSorted h version (can_go_out h version self.old.tries)
            self.old.subscribers.list.items self.new.subscribers.list.items }
    {
        let can_go_out = self.messages.can_go_out(version, self.tries);
        self.subscribers.sort_in(&self.base, version, can_go_out);
    }

    // Brings the part of the message to the region, where it is then free for the subscriptions to its channel.
    pub(crate) fn ship(&mut self, region: u32, version: u64, part: u32)
        requires { MayCall self.old (Ship region version part) }
        ensures stands { Makes self.old (Ship region version part) self.new }
        ensures start { its_start self.new ≡ its_start self.old }
    {
        self.base.ship(region, version, part);
        self.sort_in(version);
    }

    // Takes note of a look, or of a part that is brought once more. It takes no memory.
    pub(crate) fn note(&mut self)
        ensures stands { (h : List Entry) (e : Entry) → StandsFor (its_start self.old) (QueueStands self.old) h
            → Follows (its_start self.old) h e → IsQuiet e.call → QueueStands self.new (h ++ e ∷ []) }
        ensures start { its_start self.new ≡ its_start self.old }
    {
        self.base.note(1);
    }

    // Hands the next message out to the subscription.
    pub(crate) fn pull(&mut self, sub: u32)
        requires { MayCall self.old (Pull sub) }
        ensures stands { Makes self.old (Pull sub) self.new }
        ensures start { its_start self.new ≡ its_start self.old }
    {
        let version = self.next_version(sub);
        self.messages.pull(version);
        self.base.note(1);
        self.sort_in(version);
    }

    // The message is done. It was free for no subscription while it was out, and is free for none from now on.
    pub(crate) fn ack(&mut self, version: u64)
        requires { MayCall self.old (Ack version) }
        ensures stands { Makes self.old (Ack version) self.new }
        ensures start { its_start self.new ≡ its_start self.old }
    {
        self.messages.ack(version);
        self.base.note(1);
    }

    // The message is given back, and is free again if it may be handed out once more.
    pub(crate) fn nack(&mut self, version: u64)
        requires { MayCall self.old (Nack version) }
        ensures stands { Makes self.old (Nack version) self.new }
        ensures start { its_start self.new ≡ its_start self.old }
    {
        self.messages.nack(version);
        self.base.note(1);
        self.sort_in(version);
    }
}
