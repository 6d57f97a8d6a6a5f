ghost use Rattle.std.specs.Prelude.{◌≡◌, [], IfOk};
ghost use Rattle.anti_kind.specs.Starts.{IsStart};
ghost use Rattle.anti_queue.specs.QueueStarts.{queue_start};

use crate::message_states::MessageStates;
use crate::subscribers::Subscribers;
use anti_ids::NoMemory;
use anti_kind::{Awaited, Call, Handle, Kind, Machine, Reply, StoreKind, Sub};
use anti_replicas::{Channels, Replicas};
use std::alloc::Global;

/// A store of the kind queue: messages of channels. A message is handed out to one subscription at a time, once it is whole at the
/// subscription's region. Each message that is out is either done or given back, and is handed out again in the second case, until
/// it was handed out so many times as the store allows.
pub struct Queue {
    pub(crate) base: Replicas,
    pub(crate) channels: Channels,
    pub(crate) subscribers: Subscribers,
    pub(crate) messages: MessageStates,
    pub(crate) tries: u32,
}

// By hand, so that no caller sees the fields.
impl Drop for Queue {
    fn drop(self) {
        let Queue {
            base,
            channels,
            subscribers,
            messages,
            tries: _,
        } = self;
        drop(base);
        drop(channels);
        drop(subscribers);
        drop(messages);
    }
}

impl Queue {
    ghost use Rattle.anti_queue.specs.QueueStates.{QueueStands, its_start};

    /// A store with this number, of which no call was made yet, with these subscriptions. It hands a message out so many times at
    /// most: once to eight times. It has a replica in each of these regions: one to eight, all different, each below 8. It is
    /// refused only for want of memory.
    pub fn new(
        alloc: Global,
        store: u32,
        regions: &[u32],
        subs: &[Sub],
        tries: u32,
    ) -> Result<Queue, NoMemory>
        requires { IsStart (queue_start store regions.now subs.now tries) }
        ensures start { IfOk result (λ m. its_start m ≡ queue_start store regions.now subs.now tries) }
        ensures stands { IfOk result (λ m. QueueStands m []) }
    {
        let base = Replicas::new(alloc, StoreKind::Queue, store, regions)?;
        let subscribers = Subscribers::new(alloc, subs)?;
        Ok(Queue {
            base,
            channels: Channels::new(alloc),
            subscribers,
            messages: MessageStates::new(alloc),
            tries,
        })
    }
}

/// The table of a queue: `Write`, `Ship`, `Again`, `Look`, `Pull`, `Ack` and `Nack`. No other call is ever ready.
impl Machine for Queue {
    ghost use Rattle.anti_queue.specs.QueueStates.{its_start, QueueStands};

    ghost start = { its_start };

    ghost Stands = { QueueStands };

    fn ready(&self, c: &Call) -> bool {
        match c {
            Call::Write { key, .. } => key.get().plain(),
            Call::Ship { .. } | Call::Again { .. } | Call::Look { .. } => self.base.shared_ready(c),
            Call::Pull { sub } => self.base.is_version(self.next_version(*sub)),
            Call::Ack { version } => self.messages.is_out(*version),
            Call::Nack { version } => self.messages.is_out(*version),
            _ => false,
        }
    }

    fn need(&self, c: &Call) -> u32 {
        self.base.need(c)
    }

    fn held(&self) -> u32 {
        self.base.held()
    }

    fn owed(&self) -> u32 {
        self.base.owed().saturating_add(self.messages.out())
    }

    fn upto(&self, region: u32) -> u64 {
        self.base.upto(region)
    }

    fn next_ship(&self, region: u32) -> Option<(u64, u32)> {
        self.base.next_ship(region)
    }

    fn awaits(&self, c: &Call) -> Option<Awaited> {
        match c {
            Call::Pull { sub } => {
                if self.base.is_version(self.next_version(*sub)) {
                    return None;
                }
                Some(Awaited::Handout(*sub))
            }
            _ => self.base.shared_awaits(c),
        }
    }

    fn due(&self, c: &Call) -> Result<Reply, NoMemory> {
        match c {
            Call::Write { key, .. } => match self.channels.next_key(key.get()) {
                Some(key) => Ok(Reply::Written {
                    key: Handle::new(self.base.allocator(), key)?,
                    version: self.base.next_version(),
                    over: None, // nothing is replaced
                }),
                None => unreachable!(), // the channel is plain, since the call is ready
            },
            Call::Ship { .. } | Call::Again { .. } | Call::Look { .. } => self.base.shared_due(c),
            Call::Pull { sub } => match self.base.written_row(self.next_version(*sub))? {
                Some(row) => Ok(Reply::Pulled(Handle::new(self.base.allocator(), row)?)),
                None => unreachable!(), // a message is free, since the call is ready
            },
            Call::Ack { .. } => Ok(Reply::Done),
            Call::Nack { .. } => Ok(Reply::Done),
            _ => unreachable!(), // no other call is ready, by the table
        }
    }

    fn apply(&mut self, c: &Call, reply: &Reply) -> Result<(), NoMemory> {
        match c {
            Call::Write {
                key,
                value,
                lineage,
            } => self.write(key.get(), value, lineage.get(), reply),
            Call::Ship {
                region,
                version,
                part,
            } => {
                self.ship(*region, *version, *part);
                Ok(())
            }
            Call::Pull { sub } => {
                self.pull(*sub);
                Ok(())
            }
            Call::Ack { version } => {
                self.ack(*version);
                Ok(())
            }
            Call::Nack { version } => {
                self.nack(*version);
                Ok(())
            }
            Call::Again { .. } | Call::Look { .. } => {
                self.note();
                Ok(())
            }
            _ => unreachable!(), // no other call is ready, by the table
        }
    }
}

/// A queue keeps the laws of its kind.
impl Kind for Queue {
    ghost use Rattle.anti_queue.specs.QueueLaws.{queue_keeps};

    ghost keeps = { queue_keeps };
}
