ghost use Rattle.std.specs.Prelude.{◌≡◌, ◌<◌, ◌≤◌, ◌^◌, IfOk, OnErr, [], length, vec_capacity};
ghost use Rattle.anti_ids.specs.declared.limits.TheConstants.{MOST_REGIONS};
ghost use Rattle.anti_live.specs.Stores.{here_of};
ghost use Rattle.anti_live.specs.Clients.{IsJoinedTo, IsOf, IsSplitOff, least_room};
ghost use Rattle.anti_live.specs.inner.Lives.{AreJoined, AreOf, AreSplit};

use crate::client::Client;
use crate::live::Live;
use crate::stores::LiveStore;
use anti_ids::{Lineage, NoMemory};
use anti_kind::Actor;
use anti_object::Object;
use anti_shared::{Pass, Shared};
use anti_shim::Caller;
use std::alloc::Global;

impl Live {
    /// Makes a further client, in this region. It carries nothing, its span is 1, and its clock 0. Where there is no memory the client stays
    /// as it is.
    pub fn split(&self, client: &mut Client, region: u32) -> Result<Client, NoMemory>
        requires of { IsOf self.now client.old }
        requires region { region < MOST_REGIONS }
        requires room { 0 < least_room client.old.passes }
        ensures ok { IfOk result (λ new. IsSplitOff self.now region client.old client.new new) }
        ensures err { OnErr result (client.new ≡ client.old) }
    {
        let here = here_at(self.alloc, self.stores.as_slice(), region)?;
        // all memory first: splits take none
        let mut passes = Vec::new(self.alloc);
        passes.reserve(self.shareds.len())?;
        split_all(self.shareds.as_slice(), &mut client.passes, &mut passes);
        Ok(client_of(self.alloc, passes, region, here))
    }

    /// Gives up the client `from`. What it had seen, its calls and its room go to `into`, which keeps what it carries, and has the later of
    /// the two clocks. What `from` carries is lost. It takes no memory.
    pub fn join(&self, into: &mut Client, from: Client)
        requires into_of { IsOf self.now into.old }
        requires from_of { IsOf self.now from }
        ensures { IsJoinedTo self.now into.old from into.new }
    {
        into.who.clock = into.who.clock.max(from.who.clock);
        join_all(
            self.shareds.as_slice(),
            &mut into.passes,
            from.into_passes(),
        );
    }
}

// The numbers of the stores with a replica in a region, in ascending order.
pub(crate) fn here_at(
    alloc: Global,
    stores: &[LiveStore],
    region: u32,
) -> Result<Vec<u32>, NoMemory>
    requires { length stores.now < 2 ^ 32 }
    ensures { IfOk result (λ here. here.items ≡ here_of region stores.now) }
{
    let mut here = Vec::new(alloc);
    for (number, store) in stores.iter().enumerate() {
        if store.regions.as_slice().contains(&region) {
            here.push(number as u32)?;
        }
    }
    Ok(here)
}

// A client that has done nothing, by these passes. It carries nothing.
pub(crate) fn client_of(
    alloc: Global,
    passes: Vec<Pass<Object>>,
    region: u32,
    here: Vec<u32>,
) -> Client
    requires { 0 < length passes.items }
    ensures passes { result.passes ≡ passes.items }
    ensures region { result.region ≡ region }
    ensures here { result.here ≡ here.items }
    ensures lineage { result.lineage ≡ [] }
    ensures span { result.who.span ≡ 1 }
    ensures clock { result.who.clock ≡ 0 }
{
    let actor = Actor::Carrier(passes[0].number());
    let who = Caller {
        actor,
        span: 1,
        clock: 0,
    };
    Client {
        passes,
        who,
        region,
        here,
        lineage: Lineage::root(alloc),
    }
}

// Splits a further pass off each, into a list with room for all.
fn split_all(
    shareds: &[Shared<Object>],
    passes: &mut Vec<Pass<Object>>,
    made: &mut Vec<Pass<Object>>,
)
    requires of { AreOf shareds.now passes.old.items }
    requires room { 0 < least_room passes.old.items }
    requires none { made.old.items ≡ [] }
    requires fits { length shareds.now ≤ vec_capacity made.old }
    ensures { AreSplit shareds.now passes.old.items passes.new.items made.new.items }
{
    for at in 0..shareds.len() {
        // neither takes memory
        let Ok(pass) = shareds[at].split(&mut passes[at]) else {
            unreachable!()
        };
        let Ok(()) = made.push(pass) else {
            unreachable!()
        };
    }
}

// Joins passes, each into the one of its object.
fn join_all(shareds: &[Shared<Object>], into: &mut Vec<Pass<Object>>, mut from: Vec<Pass<Object>>)
    requires of { AreOf shareds.now into.old.items }
    requires from { AreOf shareds.now from.items }
    ensures { AreJoined shareds.now into.old.items from.items into.new.items }
{
    while let Some(pass) = from.pop() {
        let at = from.len();
        shareds[at].join(&mut into[at], pass);
    }
}
