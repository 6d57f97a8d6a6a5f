ghost use Rattle.std.specs.Prelude.{◌≡◌, List, [], ◌∷◌, ◌++◌, OnOk, OnErr};
ghost use Rattle.anti_kind.specs.declared.call.Call.TheVariants.{Write};
ghost use Rattle.anti_kind.specs.declared.entry.Entry.{Entry};
ghost use Rattle.anti_kind.specs.Objects.{Follows};
ghost use Rattle.anti_kind.specs.Machines.{MayMake};

use crate::topic_store::Topic;
use anti_ids::{Lineage, Name, NoMemory, Value};
use anti_kind::{Call, Reply};

impl Topic {
    ghost use Rattle.anti_topic.specs.TopicStates.{its_start, TopicStands, At, MayWriteTo};
    ghost use Rattle.anti_topic.specs.inner.Changes.{IsQuiet};

    // Writes a value to a channel: it is the next cell there. It is handed in with this lineage, and the reply says its key.
    pub(crate) fn write(
        &mut self,
        channel: &Name,
        value: &Value,
        lineage: &Lineage,
        reply: &Reply,
    ) -> Result<(), NoMemory>
        requires { MayWriteTo self.old channel.now value.now lineage.now reply.now }
        ensures stands { (h : List Entry) (e : Entry) → At self.old h
            → Follows (its_start self.old) h e → e.call ≡ Write channel.now value.now lineage.now → e.reply ≡ reply.now
            → OnOk result (TopicStands self.new (h ++ e ∷ [])) }
        ensures err { (h : List Entry) → TopicStands self.old h → OnErr result (TopicStands self.new h) }
        ensures start { its_start self.new ≡ its_start self.old }
    {
        self.channels.make_place(*channel)?;
        self.base.write(value, lineage, reply)?;
        self.channels.add(channel);
        Ok(())
    }

    // Makes a call that writes and pulls nothing. It takes no memory.
    pub(crate) fn pass(&mut self, c: &Call)
        requires may { MayMake (its_start self.old) (TopicStands self.old) c.now }
        requires quiet { IsQuiet c.now }
        ensures stands { (h : List Entry) (e : Entry) → At self.old h
            → Follows (its_start self.old) h e → e.call ≡ c.now
            → TopicStands self.new (h ++ e ∷ []) }
        ensures start { its_start self.new ≡ its_start self.old }
    {
        self.base.pass(c);
    }
}
