ghost use Rattle.std.specs.Prelude.{◌≡◌, true};
ghost use Rattle.anti_shim.specs.DryRuns.{DryRunGives};
ghost use Rattle.anti_shim.specs.Looks.{OnlyLooks};
ghost use Rattle.anti_live.specs.Clients.{Barriers, IsOf, Stays, looks_of, step_of};

use crate::client::Client;
use crate::live::Live;
use anti_ids::Lineage;
use anti_kind::Refusal;
use anti_shim::{Barrier, BarrierAnswer, ShimFault, barrier, barrier_wait, dry_run};
use std::sync::Wait;

impl Live {
    /// Looks once at each store with a replica in the client's region of which it carries ids, up to the first refusal. `Clear` tells where
    /// each look was made: it found all of them visible there. It may wait for the turn.
    pub fn barrier<R: Wait>(&self, rt: &R, client: &mut Client) -> BarrierAnswer
        requires of { IsOf self.now client.old }
        ensures answer { Barriers self.now client.old client.new result }
        ensures lineage { client.new.lineage ≡ client.old.lineage }
        ensures stays { Stays client.old client.new }
        ensures of { IsOf self.now client.new }
    {
        let Client {
            passes,
            who,
            region,
            here,
            lineage,
        } = client;
        let mut port = self.port(rt, passes);
        let mut cursor = Barrier::begin(self.alloc);
        let answer = barrier(
            self.alloc,
            &mut port,
            who,
            *region,
            here.as_slice(),
            lineage,
            &mut cursor,
        );
        *passes = port.into_passes();
        answer
    }

    /// As `barrier`, but each look is made once it is ready, which another thread has to bring about by its shipments. It may wait, and is
    /// never refused as not ready.
    pub fn barrier_wait<R: Wait>(&self, rt: &R, client: &mut Client) -> BarrierAnswer
        requires of { IsOf self.now client.old }
        ensures answer { Barriers self.now client.old client.new result }
        ensures waits { result ≡ BarrierAnswer.Refused Refusal.NotYet → ⊥ }
        ensures lineage { client.new.lineage ≡ client.old.lineage }
        ensures stays { Stays client.old client.new }
        ensures of { IsOf self.now client.new }
    {
        let Client {
            passes,
            who,
            region,
            here,
            lineage,
        } = client;
        let mut port = self.port(rt, passes);
        let mut cursor = Barrier::begin(self.alloc);
        let answer = barrier_wait(
            self.alloc,
            &mut port,
            who,
            *region,
            here.as_slice(),
            lineage,
            &mut cursor,
        );
        *passes = port.into_passes();
        answer
    }

    /// Makes a dry look at each of these stores, and names all ids that are not visible there, without waiting for them. It may wait for
    /// the turn.
    pub fn dry_run<R: Wait>(&self, rt: &R, client: &mut Client) -> Result<Lineage, ShimFault>
        requires of { IsOf self.now client.old }
        ensures answer { DryRunGives (step_of client.old client.new) client.old.region (looks_of self.now client.old) result }
        ensures only { OnlyLooks (step_of client.old client.new) client.old.region true (looks_of self.now client.old) }
        ensures lineage { client.new.lineage ≡ client.old.lineage }
        ensures stays { Stays client.old client.new }
        ensures of { IsOf self.now client.new }
    {
        let Client {
            passes,
            who,
            region,
            here,
            lineage,
        } = client;
        let mut port = self.port(rt, passes);
        let missing = dry_run(
            self.alloc,
            &mut port,
            who,
            *region,
            here.as_slice(),
            lineage,
        );
        *passes = port.into_passes();
        missing
    }
}
