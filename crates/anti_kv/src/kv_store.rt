ghost use Rattle.std.specs.Prelude.{◌≡◌, [], IfOk};
ghost use Rattle.anti_kind.specs.Starts.{IsStart};

use anti_ids::NoMemory;
use anti_kind::{Awaited, Call, Kind, Machine, Reply, StoreKind};
use anti_replicas::Replicas;
use std::alloc::Global;

/// A store of the kind kv: keys with values. A value has one part, and a replica shows the greatest version of a key that came to it.
pub struct Kv {
    base: Replicas,
}

// By hand, so that no caller sees the fields.
impl Drop for Kv {
    fn drop(self) {
        let Kv { base } = self;
        drop(base);
    }
}

impl Kv {
    ghost use Rattle.anti_kv.specs.KvStates.{KvStands, kv_start, its_start};

    /// A store with this number, of which no call was made yet. It has a replica in each of these regions: one to eight, all
    /// different, each below 8. It is refused only for want of memory.
    pub fn new(alloc: Global, store: u32, regions: &[u32]) -> Result<Kv, NoMemory>
        requires { IsStart (kv_start store regions.now) }
        ensures start { IfOk result (λ m. its_start m ≡ kv_start store regions.now) }
        ensures stands { IfOk result (λ m. KvStands m []) }
    {
        let base = Replicas::new(alloc, StoreKind::Kv, store, regions)?;
        Ok(Kv { base })
    }
}

/// The table of a kv store: `Write`, `Ship`, `Again`, `Look` and `Read`. No other call is ever ready.
impl Machine for Kv {
    ghost use Rattle.anti_kv.specs.KvStates.{its_start, KvStands};

    ghost start = { its_start };

    ghost Stands = { KvStands };

    fn ready(&self, c: &Call) -> bool {
        self.base.keyed_ready(c)
    }

    fn need(&self, c: &Call) -> u32 {
        self.base.need(c)
    }

    fn held(&self) -> u32 {
        self.base.held()
    }

    fn owed(&self) -> u32 {
        self.base.owed()
    }

    fn upto(&self, region: u32) -> u64 {
        self.base.upto(region)
    }

    fn next_ship(&self, region: u32) -> Option<(u64, u32)> {
        self.base.next_ship(region)
    }

    fn awaits(&self, c: &Call) -> Option<Awaited> {
        self.base.shared_awaits(c)
    }

    fn due(&self, c: &Call) -> Result<Reply, NoMemory> {
        self.base.keyed_due(c)
    }

    fn apply(&mut self, c: &Call, reply: &Reply) -> Result<(), NoMemory> {
        self.base.keyed_apply(c, reply)
    }
}

/// A kv store keeps the laws of its kind.
impl Kind for Kv {
    ghost use Rattle.anti_kv.specs.KvLaws.{kv_keeps};

    ghost keeps = { kv_keeps };
}
