ghost use Rattle.std.specs.Prelude.{◌≡◌, List, [], ◌∷◌, ◌++◌, OnOk, OnErr};
ghost use Rattle.anti_kind.specs.declared.call.Call.TheVariants.{Write};
ghost use Rattle.anti_kind.specs.declared.entry.Entry.{Entry};
ghost use Rattle.anti_kind.specs.Objects.{Follows};
ghost use Rattle.anti_kind.specs.Machines.{StandsFor};

use crate::queue_store::Queue;
use anti_ids::{Lineage, Name, NoMemory, Value};
use anti_kind::Reply;

impl Queue {
    ghost use Rattle.anti_queue.specs.QueueStates.{its_store, its_start, QueueStands, MayWriteTo, HasRoom};

    // Makes room for one more message of the channel.
    fn make_room(&mut self, channel: &Name) -> Result<(), NoMemory>
        ensures base { self.new.base ≡ self.old.base }
        ensures stands { (h : List Entry) → QueueStands self.old h → QueueStands self.new h }
        ensures store { its_store self.new ≡ its_store self.old }
        ensures room { OnOk result (HasRoom self.new channel.now) }
    {
        self.channels.make_place(*channel)?;
        self.messages.make_room()?;
        let messages = self.channels.count(channel).saturating_add(2) as usize;
        self.subscribers.make_room(channel, messages)
    }

    // Writes a message to the channel, which is handed in with this lineage, by what the reply says. It is free for no subscription before
    // it came to the subscription's region.
    pub(crate) fn write(
        &mut self,
        channel: &Name,
        value: &Value,
        lineage: &Lineage,
        reply: &Reply,
    ) -> Result<(), NoMemory>
        requires { MayWriteTo self.old channel.now value.now lineage.now reply.now }
        ensures stands { (h : List Entry) (e : Entry) → StandsFor (its_start self.old) (QueueStands self.old) h
            → Follows (its_start self.old) h e → e.call ≡ Write channel.now value.now lineage.now → e.reply ≡ reply.now
            → OnOk result (QueueStands self.new (h ++ e ∷ [])) }
        ensures err { (h : List Entry) → QueueStands self.old h → OnErr result (QueueStands self.new h) }
        ensures start { its_start self.new ≡ its_start self.old }
    {
        self.make_room(channel)?;
        self.base.write(value, lineage, reply)?;
        self.messages.add();
        self.channels.add(channel);
        Ok(())
    }
}
