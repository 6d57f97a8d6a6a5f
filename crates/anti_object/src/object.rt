ghost use Rattle.std.specs.Prelude.{◌≡◌, List};
ghost use Rattle.anti_kind.specs.declared.entry.Entry.{Entry};
ghost use Rattle.anti_kind.specs.Caches.{stale};
ghost use Rattle.anti_kind.specs.Objects.{fits};
ghost use Rattle.anti_object.specs.Standing.{object_start, ObjectAt};

use anti_blob::Blob;
use anti_cache::CachedKv;
use anti_ids::{MOST_UNITS, NoMemory};
use anti_inbox::Inbox;
use anti_kind::{Awaited, Call, Kind, Machine, Reply};
use anti_kv::Kv;
use anti_queue::Queue;
use anti_table::Table;
use anti_topic::Topic;

/// An object of an application: one of the machines.
pub enum Object {
    /// A store of keys.
    Kv(Kv),
    /// A store of keys whose writes come to each region in their order.
    Table(Table),
    /// A store of keys whose values come in parts.
    Blob(Blob),
    /// A store of messages, each of which is handed out until it is done.
    Queue(Queue),
    /// A store of cells, which each subscription pulls in their order.
    Topic(Topic),
    /// A store of keys whose replicas read through caches.
    Cached(CachedKv),
    /// The inbox of a service.
    Inbox(Inbox),
}

// By hand, so that no caller sees the variants.
impl Drop for Object {
    fn drop(self) {
        match self {
            Object::Kv(machine) => drop(machine),
            Object::Table(machine) => drop(machine),
            Object::Blob(machine) => drop(machine),
            Object::Queue(machine) => drop(machine),
            Object::Topic(machine) => drop(machine),
            Object::Cached(machine) => drop(machine),
            Object::Inbox(machine) => drop(machine),
        }
    }
}

// What an object does is what its machine does.
macro_rules! each {
    ($object:ident, $machine:ident => $does:expr) => {
        match $object {
            Object::Kv($machine) => $does,
            Object::Table($machine) => $does,
            Object::Blob($machine) => $does,
            Object::Queue($machine) => $does,
            Object::Topic($machine) => $does,
            Object::Cached($machine) => $does,
            Object::Inbox($machine) => $does,
        }
    };
}

impl Machine for Object {
    ghost use Rattle.anti_object.specs.Standing.{object_start, ObjectStands};

    ghost start = { object_start };

    ghost Stands = { ObjectStands };

    fn ready(&self, c: &Call) -> bool {
        each!(self, machine => machine.ready(c))
    }

    fn need(&self, c: &Call) -> u32 {
        each!(self, machine => machine.need(c))
    }

    fn held(&self) -> u32 {
        each!(self, machine => machine.held())
    }

    fn owed(&self) -> u32 {
        each!(self, machine => machine.owed())
    }

    fn upto(&self, region: u32) -> u64 {
        each!(self, machine => machine.upto(region))
    }

    fn next_ship(&self, region: u32) -> Option<(u64, u32)> {
        each!(self, machine => machine.next_ship(region))
    }

    fn awaits(&self, c: &Call) -> Option<Awaited> {
        each!(self, machine => machine.awaits(c))
    }

    fn due(&self, c: &Call) -> Result<Reply, NoMemory> {
        each!(self, machine => machine.due(c))
    }

    fn apply(&mut self, c: &Call, reply: &Reply) -> Result<(), NoMemory> {
        each!(self, machine => machine.apply(c, reply))
    }
}

impl Kind for Object {
    ghost use Rattle.anti_object.specs.ObjectLaws.{object_keeps};

    ghost keeps = { object_keeps };
}

impl Object {
    /// Whether a call fits. It takes no memory.
    pub fn fits(&self, call: &Call) -> bool
        ensures { (h : List Entry) → ObjectAt self.now h → result ≡ fits (object_start self.now) h call.now }
    {
        let units = self.held() as u64 + self.owed() as u64 + self.need(call) as u64;
        units <= MOST_UNITS as u64
    }

    /// The version that is to come again next to a region, so that its cache is not behind. There is none where it is behind in nothing, nor
    /// of an object that has no caches. It takes no memory.
    pub fn stale(&self, region: u32) -> Option<u64>
        ensures { (h : List Entry) → ObjectAt self.now h → result ≡ stale (object_start self.now) h region }
    {
        match self {
            Object::Cached(machine) => machine.stale(region),
            _ => None,
        }
    }
}
