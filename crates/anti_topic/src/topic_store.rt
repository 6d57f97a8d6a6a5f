ghost use Rattle.std.specs.Prelude.{◌≡◌, [], IfOk};
ghost use Rattle.anti_kind.specs.Starts.{IsStart};

use crate::pull_cursor::{PullCursor, new_cursors};
use anti_ids::NoMemory;
use anti_kind::{Awaited, Call, Handle, Kind, Machine, Reply, StoreKind, Sub};
use anti_replicas::{Channels, Replicas};
use std::alloc::Global;

/// A store of the kind topic: channels of cells. The nth write to the channel c is its nth cell, with the key c#n. Each subscription
/// pulls the cells of its channel one after another, as they are whole at its region, whatever others pulled.
pub struct Topic {
    pub(crate) base: Replicas,
    pub(crate) channels: Channels,
    pub(crate) subs: Vec<Sub>,
    // that of each subscription
    pub(crate) cursors: Vec<PullCursor>,
}

// By hand, so that no caller sees the fields.
impl Drop for Topic {
    fn drop(self) {
        let Topic {
            base,
            channels,
            subs,
            cursors,
        } = self;
        drop(base);
        drop(channels);
        drop(subs);
        drop(cursors);
    }
}

fn copied(alloc: Global, subs: &[Sub]) -> Result<Vec<Sub>, NoMemory>
    ensures { IfOk result (λ v. v.items ≡ subs.now) }
{
    match Vec::from_slice(alloc, subs) {
        Ok(subs) => Ok(subs),
        Err(_) => Err(NoMemory),
    }
}

impl Topic {
    ghost use Rattle.anti_topic.specs.TopicStates.{TopicStands, topic_start, its_start};

    /// A store with this number, of which no call was made yet. It has a replica in each of these regions, one to eight, all
    /// different, each below 8, and these subscriptions to plain channels at its replicas. It is refused only for want of memory.
    pub fn new(alloc: Global, store: u32, regions: &[u32], subs: &[Sub]) -> Result<Topic, NoMemory>
        requires { IsStart (topic_start store regions.now subs.now) }
        ensures start { IfOk result (λ m. its_start m ≡ topic_start store regions.now subs.now) }
        ensures stands { IfOk result (λ m. TopicStands m []) }
    {
        let base = Replicas::new(alloc, StoreKind::Topic, store, regions)?;
        let cursors = new_cursors(alloc, subs.len())?;
        let subs = copied(alloc, subs)?;
        Ok(Topic {
            base,
            channels: Channels::new(alloc),
            subs,
            cursors,
        })
    }
}

/// The table of a topic: `Write`, `Ship`, `Again`, `Look`, `Poll`, `Pull` and `Repull`. No other call is ever ready.
impl Machine for Topic {
    ghost use Rattle.anti_topic.specs.TopicStates.{its_start, TopicStands};

    ghost start = { its_start };

    ghost Stands = { TopicStands };

    fn ready(&self, c: &Call) -> bool {
        match c {
            Call::Write { key, .. } => key.get().plain(),
            Call::Ship { .. } | Call::Again { .. } | Call::Look { .. } => self.base.shared_ready(c),
            Call::Poll { region, .. } => self.base.is_replica(*region),
            Call::Pull { sub } => self.base.is_version(self.next_version(*sub)),
            Call::Repull { sub, version } => self.was_pulled(*sub, *version),
            _ => false,
        }
    }

    fn need(&self, c: &Call) -> u32 {
        self.base.need(c)
    }

    fn held(&self) -> u32 {
        self.base.held()
    }

    fn owed(&self) -> u32 {
        self.base.owed()
    }

    fn upto(&self, region: u32) -> u64 {
        self.base.upto(region)
    }

    fn next_ship(&self, region: u32) -> Option<(u64, u32)> {
        self.base.next_ship(region)
    }

    fn awaits(&self, c: &Call) -> Option<Awaited> {
        match c {
            Call::Pull { sub } => {
                if self.base.is_version(self.next_version(*sub)) {
                    return None;
                }
                Some(Awaited::Handout(*sub))
            }
            _ => self.base.shared_awaits(c),
        }
    }

    fn due(&self, c: &Call) -> Result<Reply, NoMemory> {
        match c {
            Call::Write { key, .. } => match self.channels.next_key(key.get()) {
                Some(key) => Ok(Reply::Written {
                    key: Handle::new(self.base.allocator(), key)?,
                    version: self.base.next_version(),
                    over: None, // nothing is replaced
                }),
                None => unreachable!(), // the channel is plain, since the call is ready
            },
            Call::Ship { .. } | Call::Again { .. } | Call::Look { .. } => self.base.shared_due(c),
            Call::Poll { region, key } => self.base.read(*region, key),
            Call::Pull { sub } => self.cell_of(self.next_version(*sub)),
            Call::Repull { version, .. } => self.cell_of(*version),
            _ => unreachable!(), // no other call is ready, by the table
        }
    }

    fn apply(&mut self, c: &Call, reply: &Reply) -> Result<(), NoMemory> {
        match c {
            Call::Write {
                key,
                value,
                lineage,
            } => self.write(key.get(), value, lineage.get(), reply),
            Call::Pull { sub } => {
                self.pull(*sub, reply);
                Ok(())
            }
            _ => {
                self.pass(c);
                Ok(())
            }
        }
    }
}

/// A topic keeps the laws of its kind.
impl Kind for Topic {
    ghost use Rattle.anti_topic.specs.TopicLaws.{topic_keeps};

    ghost keeps = { topic_keeps };
}
