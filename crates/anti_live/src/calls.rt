ghost use Rattle.std.specs.Prelude.{◌≡◌, ◌<◌, Some, length, slice_get, true};
ghost use Rattle.anti_live.specs.Stores.{is_among};
ghost use Rattle.anti_shim.specs.Shims.{Reads, Scans, Writes};
ghost use Rattle.anti_live.specs.declared.stores.LiveStore.{LiveStore};
ghost use Rattle.anti_live.specs.Clients.{IsOf, Ships, Stays, step_of};

use crate::client::Client;
use crate::live::Live;
use crate::stores::LiveKind;
use anti_ids::{Name, Value, WriteId};
use anti_kind::{Answer, Call, Port, Row, Rows};
use anti_shim::{KvShim, ShimFault, TableShim};
use std::sync::Wait;

impl Live {
    /// Makes one write, which hands in what the client carries, and then carries its id and what is kept beside it. `LineageFull`: the
    /// write was made, and the lineage is as before. With every other fault nothing was written. It may wait for the turn.
    pub fn write<R: Wait>(
        &self,
        rt: &R,
        client: &mut Client,
        store: u32,
        key: Name,
        value: Value,
    ) -> Result<WriteId, ShimFault>
        requires of { IsOf self.now client.old }
        requires store { store < length self.now.stores }
        ensures answer { Writes (step_of client.old client.new) store key value client.old.lineage client.new.lineage result }
        ensures stays { Stays client.old client.new }
        ensures of { IsOf self.now client.new }
    {
        let Client {
            passes,
            who,
            region,
            lineage,
            ..
        } = client;
        let mut port = self.port(rt, passes);
        // a write is the same of each kind
        let shim = KvShim::new(store, *region);
        let wrote = shim.write(self.alloc, &mut port, who, key, value, lineage);
        *passes = port.into_passes();
        wrote
    }

    /// Makes one read, in the client's region, where the store has a replica (`Client::is_here`), and gives the row that it shows for the
    /// key. It carries nothing on: `transfer` does. It may wait for the turn.
    pub fn read<R: Wait>(
        &self,
        rt: &R,
        client: &mut Client,
        store: u32,
        key: Name,
    ) -> Result<Row, ShimFault>
        requires of { IsOf self.now client.old }
        requires here { is_among store client.old.here ≡ true }
        ensures answer { Reads (step_of client.old client.new) store client.old.region key result }
        ensures lineage { client.new.lineage ≡ client.old.lineage }
        ensures stays { Stays client.old client.new }
        ensures of { IsOf self.now client.new }
    {
        let Client {
            passes,
            who,
            region,
            ..
        } = client;
        let mut port = self.port(rt, passes);
        // a read is the same of each kind
        let shown = KvShim::new(store, *region).read(&mut port, who, key);
        *passes = port.into_passes();
        shown
    }

    /// Makes one scan of a table, in the client's region, where it has a replica, and gives the rows that it shows for the keys that begin
    /// with the prefix. It may wait for the turn.
    pub fn scan<R: Wait>(
        &self,
        rt: &R,
        client: &mut Client,
        store: u32,
        prefix: Name,
    ) -> Result<Rows, ShimFault>
        requires of { IsOf self.now client.old }
        requires here { is_among store client.old.here ≡ true }
        requires table { (s : LiveStore) → slice_get self.now.stores store ≡ Some s → s.kind ≡ LiveKind.Table }
        ensures answer { Scans (step_of client.old client.new) store client.old.region prefix result }
        ensures lineage { client.new.lineage ≡ client.old.lineage }
        ensures stays { Stays client.old client.new }
        ensures of { IsOf self.now client.new }
    {
        let Client {
            passes,
            who,
            region,
            ..
        } = client;
        let mut port = self.port(rt, passes);
        let shown = TableShim::new(store, *region).scan(&mut port, who, prefix);
        *passes = port.into_passes();
        shown
    }

    /// Brings a part of a version to a region. Parts and versions count from 1; only a blob's values have more than one part. It may wait
    /// for the turn, and takes no memory.
    pub fn ship<R: Wait>(
        &self,
        rt: &R,
        client: &mut Client,
        store: u32,
        region: u32,
        version: u64,
        part: u32,
    ) -> Answer
        requires of { IsOf self.now client.old }
        requires store { store < length self.now.stores }
        ensures answer { Ships (step_of client.old client.new) store (Call.Ship region version part) result }
        ensures memory { result ≡ Answer.NoMemory → ⊥ }
        ensures lineage { client.new.lineage ≡ client.old.lineage }
        ensures stays { Stays client.old client.new }
        ensures of { IsOf self.now client.new }
    {
        let Client { passes, who, .. } = client;
        let mut port = self.port(rt, passes);
        let ship = Call::Ship {
            region,
            version,
            part,
        };
        let answer = port.call(store, who.actor, 0, who.clock, ship);
        *passes = port.into_passes();
        if let Answer::Made { stamp, .. } = answer {
            who.clock = stamp;
        }
        answer
    }
}
