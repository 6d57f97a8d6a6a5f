ghost use Rattle.std.specs.Prelude.{◌≡◌, ◌+◌, ◌-◌, ◌^◌, ◌<◌, ◌≤◌, [], Err, All, length, OnErr, OnOk};
ghost use Rattle.anti_ids.specs.Ids.{with_ids};
ghost use Rattle.anti_ids.specs.declared.limits.TheConstants.{MOST_IDS};
ghost use Rattle.anti_ids.specs.declared.lineage.LineageRefused.TheVariants.{Full};
ghost use Rattle.anti_object.specs.Standing.{object_start};
ghost use Rattle.anti_shared.specs.Passes.{IsPass};
ghost use Rattle.anti_shim.specs.Shims.{brought_by};
ghost use Rattle.anti_live.specs.Stores.{is_among};
ghost use Rattle.anti_live.specs.Clients.{ClientView, IsClient, begins_span, carries, least_room};

use anti_ids::{Lineage, LineageRefused};
use anti_kind::Row;
use anti_object::Object;
use anti_shared::Pass;
use anti_shim::{Caller, transfer_row};
use std::marker::Model;

// The room of the first pass of an object: how many further ones can be made of it.
const MOST_CLIENTS: u64 = u32::MAX as u64 - 1;

/// Who calls on the stores of a `Live`: what it carries, its region, its span and its last stamp. It can be sent to another thread. The
/// actor of its entries is the carrier with the number of its pass of store 0. A client that is dropped counts as out for ever: then the
/// stores are never closed.
pub struct Client {
    // one for each store, in their order
    pub(crate) passes: Vec<Pass<Object>>,
    pub(crate) who: Caller,
    pub(crate) region: u32,
    // the stores with a replica in the region
    pub(crate) here: Vec<u32>,
    pub(crate) lineage: Lineage,
}

impl Model for Client {
    ghost use Rattle.anti_live.specs.Clients.{ClientView, IsClient};
    ghost use Rattle.std.specs.Coded.{codes};
    ghost use Rattle.anti_object.specs.contracts.object.Object as object;

    ghost Value = { ClientView };

    ghost coded = { Prim.hlevel (codes, object.the_row.coded) };

    ghost view = { λ c. record {
      passes = c.passes.items;
      who = c.who;
      region = c.region;
      here = c.here.items;
      lineage = c.lineage;
    } };

    ghost invariant = { λ c. IsClient c.passes.items c.who };
}

// By hand, so that no caller sees the fields.
impl Drop for Client {
    fn drop(self) {
        let Client {
            passes,
            who: _,
            region: _,
            here,
            lineage,
        } = self;
        drop(passes);
        drop(here);
        drop(lineage);
    }
}

impl Client {
    /// How many clients can still be made from this one, those that are made from these included: the least room of its passes, at most
    /// 2^32 - 2. It takes no memory.
    pub fn room(&self) -> u64
        ensures is { result ≡ least_room self.now.passes }
        ensures most { result ≤ 4294967294 }
    {
        let mut least = MOST_CLIENTS;
        for pass in self.passes.as_slice() {
            least = least.min(pass.room());
        }
        least
    }

    /// What is carried. It takes no memory.
    pub fn lineage(&self) -> &Lineage
        ensures { result.now ≡ self.now.lineage }
    {
        &self.lineage
    }

    /// The stamp of the last entry of the client, and of those that were joined into it; 0 where there is none. It takes no memory.
    pub fn clock(&self) -> u64
        ensures { result ≡ self.now.who.clock }
    {
        self.who.clock
    }

    /// The span, which its entries have. It counts from 1. It takes no memory.
    pub fn span(&self) -> u32
        ensures { result ≡ self.now.who.span }
    {
        self.who.span
    }

    /// Empties the lineage, and begins the next span. It takes no memory.
    pub fn root(&mut self)
        requires { self.old.who.span < 2 ^ 32 - 1 }
        ensures { self.new ≡ begins_span self.old }
    {
        self.lineage = Lineage::root(*self.passes.allocator());
        self.who.span += 1;
    }

    /// Takes a row of a store over that was read, or that came otherwise: its id, where it is that of a write, and what is kept beside it.
    /// `Full` only where these and what is carried are more than 512 ids. With a fault the client stays as it is.
    pub fn transfer(&mut self, store: u32, row: &Row) -> Result<(), LineageRefused>
        ensures ok { OnOk result (self.new ≡ carries (with_ids (brought_by store row.now) self.old.lineage) self.old) }
        ensures carried { self.new ≡ carries self.new.lineage self.old }
        ensures err { OnErr result (self.new ≡ self.old) }
        ensures full { result ≡ Err Full → MOST_IDS < length (with_ids (brought_by store row.now) self.old.lineage) }
        ensures fits { OnOk result (length (with_ids (brought_by store row.now) self.old.lineage) ≤ MOST_IDS) }
    {
        transfer_row(&mut self.lineage, store, row)
    }

    /// Whether a store has a replica in the client's region, so that it can be read there. It takes no memory.
    pub fn is_here(&self, store: u32) -> bool
        ensures { result ≡ is_among store self.now.here }
    {
        self.here.as_slice().contains(&store)
    }

    // The passes. What is carried is given up.
    pub(crate) fn into_passes(self) -> Vec<Pass<Object>>
        ensures { result.items ≡ self.passes }
    {
        let Client {
            passes,
            who: _,
            region: _,
            here,
            lineage,
        } = self;
        drop(here);
        drop(lineage);
        passes
    }

    /// What is true of each client: of each store it has seen a legal history. Its own entries, and those of the clients that were joined
    /// into it, are all that the history has of their numbers, which differ. The actor of its entries is the carrier with its number at
    /// store 0. It takes no memory.
    pub fn histories(&self)
        ensures legal { All (IsPass object_start) self.now.passes }
        ensures actor { IsClient self.now.passes self.now.who }
    {
        for pass in self.passes.as_slice() {
            // it tells what is true of each pass
            let _number = pass.number();
        }
    }
}
