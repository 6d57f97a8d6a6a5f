use crate::handle::Handle;
use crate::message::Message;
use crate::row::{Row, Rows};
use anti_ids::{Copies, Lineage, Name, NoMemory, Value};
use std::alloc::Global;

/// What an object is asked. Versions, parts and the numbers of messages and free deliveries count from 1, regions and
/// subscriptions from 0; a subscription is named by its position among those of its store.
#[derive(Drop)]
pub enum Call {
    /// Writes a value to a key, or, in a queue and a topic, to a channel.
    Write {
        key: Handle<Name>,
        value: Value,
        lineage: Handle<Lineage>,
    },
    /// Reads what a region shows for a key.
    Read {
        region: u32,
        key: Name,
    },
    /// Reads all keys that begin with a prefix.
    Scan {
        region: u32,
        prefix: Name,
    },
    /// Reads what a region shows of a cell.
    Poll {
        region: u32,
        key: Name,
    },
    /// Asks which ids are not visible at a region. A dry one is answered whatever it finds.
    Look {
        region: u32,
        ids: Handle<Lineage>,
        dry: bool,
    },
    /// Brings a part of a version to a region.
    Ship {
        region: u32,
        version: u64,
        part: u32,
    },
    /// Brings it once more.
    Again {
        region: u32,
        version: u64,
        part: u32,
    },
    /// Takes the next message or cell for a subscription.
    Pull {
        sub: u32,
    },
    /// Takes a cell once more that the subscription pulled before.
    Repull {
        sub: u32,
        version: u64,
    },
    /// Says that a message is done.
    Ack {
        version: u64,
    },
    /// Gives a message back.
    Nack {
        version: u64,
    },
    /// Posts a message to an inbox.
    Post {
        message: Handle<Message>,
    },
    /// Takes the message of the nth free delivery.
    Take {
        nth: u32,
    },
    /// Delivers a message once more.
    Repost {
        number: u32,
    },
    /// Takes the reply to a call.
    TakeReply {
        number: u32,
    },
}

/// What an object answers.
#[derive(Drop)]
pub enum Reply {
    /// The key and the version that was written, and the lineage that is kept beside the write: `None` where that is the one that was
    /// handed in, since the write that is replaced leaves nothing more, or there is none.
    Written {
        key: Handle<Name>,
        version: u64,
        over: Option<Handle<Lineage>>,
    },
    /// The rows that a read shows.
    Shown(Rows),
    /// The ids that are not visible, and those that nobody wrote.
    Missing {
        missing: Handle<Lineage>,
        unwritten: Handle<Lineage>,
    },
    /// A part was brought.
    Moved,
    /// The row of the message or cell.
    Pulled(Handle<Row>),
    /// The number of the message that was posted.
    Posted(u32),
    /// The message that was taken, with its number; of a reply, the number of its call.
    Got {
        number: u32,
        message: Handle<Message>,
    },
    /// It was done.
    Done,
}

impl Copies for Call {
    fn copy(&self, alloc: Global) -> Result<Call, NoMemory> {
        match *self {
            Call::Write {
                ref key,
                ref value,
                ref lineage,
            } => Ok(Call::Write {
                key: key.share()?,
                value: value.copy(alloc)?,
                lineage: lineage.share()?,
            }),
            Call::Read { region, key } => Ok(Call::Read { region, key }),
            Call::Scan { region, prefix } => Ok(Call::Scan { region, prefix }),
            Call::Poll { region, key } => Ok(Call::Poll { region, key }),
            Call::Look {
                region,
                ref ids,
                dry,
            } => Ok(Call::Look {
                region,
                ids: ids.share()?,
                dry,
            }),
            Call::Ship {
                region,
                version,
                part,
            } => Ok(Call::Ship {
                region,
                version,
                part,
            }),
            Call::Again {
                region,
                version,
                part,
            } => Ok(Call::Again {
                region,
                version,
                part,
            }),
            Call::Pull { sub } => Ok(Call::Pull { sub }),
            Call::Repull { sub, version } => Ok(Call::Repull { sub, version }),
            Call::Ack { version } => Ok(Call::Ack { version }),
            Call::Nack { version } => Ok(Call::Nack { version }),
            Call::Post { ref message } => Ok(Call::Post {
                message: message.share()?,
            }),
            Call::Take { nth } => Ok(Call::Take { nth }),
            Call::Repost { number } => Ok(Call::Repost { number }),
            Call::TakeReply { number } => Ok(Call::TakeReply { number }),
        }
    }
}

impl Reply {
    ghost use Rattle.std.specs.Prelude.{◌≡◌, ◌-◌, ◌^◌, min};
    ghost use Rattle.anti_kind.specs.Objects.{weight};

    /// The units of an entry with this reply, one for each row that it shows and one where it shows none, or `u32::MAX` where they are
    /// more. It takes no memory.
    pub fn weight(&self) -> u32
        ensures { result ≡ min (weight self.now) (2 ^ 32 - 1) }
    {
        match self {
            Reply::Shown(rows) => rows.len().max(1).min(u32::MAX as usize) as u32,
            _ => 1,
        }
    }
}

impl Copies for Reply {
    ghost use Rattle.std.specs.Prelude.{◌≡◌, IfOk, IsOk};

    /// An equal reply. That something was brought takes no memory.
    fn copy(&self, alloc: Global) -> Result<Reply, NoMemory>
        ensures is { IfOk result (λ reply. reply ≡ self.now) }
        ensures moved { self.now ≡ Reply.Moved → IsOk result }
    {
        match self {
            Reply::Written { key, version, over } => {
                let key = key.share()?;
                let over = match over {
                    Some(lineage) => Some(lineage.share()?),
                    None => None,
                };
                Ok(Reply::Written {
                    key,
                    version: *version,
                    over,
                })
            }
            Reply::Shown(rows) => {
                let rows = rows.copy(alloc)?;
                Ok(Reply::Shown(rows))
            }
            Reply::Missing { missing, unwritten } => {
                let missing = missing.copy(alloc)?;
                let unwritten = unwritten.copy(alloc)?;
                Ok(Reply::Missing { missing, unwritten })
            }
            Reply::Moved => Ok(Reply::Moved),
            Reply::Pulled(row) => {
                let row = row.copy(alloc)?;
                Ok(Reply::Pulled(row))
            }
            Reply::Posted(number) => Ok(Reply::Posted(*number)),
            Reply::Got { number, message } => {
                let message = message.copy(alloc)?;
                Ok(Reply::Got {
                    number: *number,
                    message,
                })
            }
            Reply::Done => Ok(Reply::Done),
        }
    }
}
