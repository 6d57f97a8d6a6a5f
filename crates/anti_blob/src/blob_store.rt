ghost use Rattle.std.specs.Prelude.{◌≡◌, [], IfOk};
ghost use Rattle.anti_kind.specs.Starts.{IsStart};

use anti_ids::NoMemory;
use anti_kind::{Awaited, Call, Kind, Machine, Reply, StoreKind};
use anti_replicas::Replicas;
use std::alloc::Global;

/// A store of the kind blob: keys with values. A value has a part for each 64 bytes, and a replica shows the greatest version of a key of which
/// all parts came to it.
pub struct Blob {
    base: Replicas,
}

// By hand, so that no caller sees the fields.
impl Drop for Blob {
    fn drop(self) {
        let Blob { base } = self;
        drop(base);
    }
}

impl Blob {
    ghost use Rattle.anti_blob.specs.BlobStates.{BlobStands, blob_start, its_start};

    /// A store with this number, of which no call was made yet. It has a replica in each of these regions: one to eight, all
    /// different, each below 8. It is refused only for want of memory.
    pub fn new(alloc: Global, store: u32, regions: &[u32]) -> Result<Blob, NoMemory>
        requires { IsStart (blob_start store regions.now) }
        ensures start { IfOk result (λ m. its_start m ≡ blob_start store regions.now) }
        ensures stands { IfOk result (λ m. BlobStands m []) }
    {
        let base = Replicas::new(alloc, StoreKind::Blob, store, regions)?;
        Ok(Blob { base })
    }
}

/// The table of a blob: `Write`, `Ship`, `Again`, `Look` and `Read`. No other call is ever ready.
impl Machine for Blob {
    ghost use Rattle.anti_blob.specs.BlobStates.{its_start, BlobStands};

    ghost start = { its_start };

    ghost Stands = { BlobStands };

    fn ready(&self, c: &Call) -> bool {
        self.base.keyed_ready(c)
    }

    fn need(&self, c: &Call) -> u32 {
        self.base.need(c)
    }

    fn held(&self) -> u32 {
        self.base.held()
    }

    fn owed(&self) -> u32 {
        self.base.owed()
    }

    fn upto(&self, region: u32) -> u64 {
        self.base.upto(region)
    }

    fn next_ship(&self, region: u32) -> Option<(u64, u32)> {
        self.base.next_ship(region)
    }

    fn awaits(&self, c: &Call) -> Option<Awaited> {
        self.base.shared_awaits(c)
    }

    fn due(&self, c: &Call) -> Result<Reply, NoMemory> {
        self.base.keyed_due(c)
    }

    fn apply(&mut self, c: &Call, reply: &Reply) -> Result<(), NoMemory> {
        self.base.keyed_apply(c, reply)
    }
}

/// A blob keeps the laws of its kind.
impl Kind for Blob {
    ghost use Rattle.anti_blob.specs.BlobLaws.{blob_keeps};

    ghost keeps = { blob_keeps };
}
