ghost use Rattle.std.specs.Prelude.{◌≡◌, [], IfOk};
ghost use Rattle.anti_kind.specs.Starts.{IsStart};

use anti_ids::NoMemory;
use anti_kind::{Awaited, Call, Kind, Machine, Reply, StoreKind};
use anti_replicas::Replicas;
use std::alloc::Global;

/// A store of the kind table: keys with values, which come to each replica in the order of their versions. A scan reads all keys with
/// a prefix.
pub struct Table {
    base: Replicas,
}

// By hand, so that no caller sees the fields.
impl Drop for Table {
    fn drop(self) {
        let Table { base } = self;
        drop(base);
    }
}

impl Table {
    ghost use Rattle.anti_table.specs.TableStates.{TableStands, table_start, its_start};

    /// A store with this number, of which no call was made yet. It has a replica in each of these regions: one to eight, all
    /// different, each below 8. It is refused only for want of memory.
    pub fn new(alloc: Global, store: u32, regions: &[u32]) -> Result<Table, NoMemory>
        requires { IsStart (table_start store regions.now) }
        ensures start { IfOk result (λ m. its_start m ≡ table_start store regions.now) }
        ensures stands { IfOk result (λ m. TableStands m []) }
    {
        let base = Replicas::new(alloc, StoreKind::Table, store, regions)?;
        Ok(Table { base })
    }
}

/// The table of a table: `Write`, `Ship`, `Again`, `Look`, `Read` and `Scan`. No other call is ever ready.
impl Machine for Table {
    ghost use Rattle.anti_table.specs.TableStates.{its_start, TableStands};

    ghost start = { its_start };

    ghost Stands = { TableStands };

    fn ready(&self, c: &Call) -> bool {
        self.base.keyed_ready(c)
    }

    fn need(&self, c: &Call) -> u32 {
        self.base.need(c)
    }

    fn held(&self) -> u32 {
        self.base.held()
    }

    fn owed(&self) -> u32 {
        self.base.owed()
    }

    fn upto(&self, region: u32) -> u64 {
        self.base.upto(region)
    }

    fn next_ship(&self, region: u32) -> Option<(u64, u32)> {
        self.base.next_ship(region)
    }

    fn awaits(&self, c: &Call) -> Option<Awaited> {
        self.base.shared_awaits(c)
    }

    fn due(&self, c: &Call) -> Result<Reply, NoMemory> {
        self.base.keyed_due(c)
    }

    fn apply(&mut self, c: &Call, reply: &Reply) -> Result<(), NoMemory> {
        self.base.keyed_apply(c, reply)
    }
}

/// A table keeps the laws of its kind.
impl Kind for Table {
    ghost use Rattle.anti_table.specs.TableLaws.{table_keeps};

    ghost keeps = { table_keeps };
}
