ghost use Rattle.std.specs.Prelude.{◌≡◌, map, IfOk, IsTrue};
ghost use Rattle.anti_app.specs.declared.app.App.{App};
ghost use Rattle.anti_app.specs.Sound.{is_sound};
ghost use Rattle.anti_trace.specs.Histories.{Entries};
ghost use Rattle.anti_trace.specs.inner.Trails.{IsAftermathOf};
ghost use Rattle.anti_play.specs.inner.Standing.{IsSoundWorld, WorldIsAfter, WorldStands};
ghost use Rattle.anti_play.specs.inner.Closing.{histories_of};

use crate::world::World;
use anti_ids::{List, NoMemory};
use anti_kind::{Call, History, Machine, Recorded};
use anti_object::Object;
use anti_trace::{Aftermath, EndOfObjects, Histories, Trace, merge};
use std::alloc::Global;

impl EndOfObjects for World {
    ghost After = { WorldIsAfter };

    fn is_full(&self, object: u32, call: &Call) -> bool {
        match self.objects.get(object as usize) {
            Some(recorded) => recorded.machine().ready(call) && !recorded.machine().fits(call),
            None => false,
        }
    }
}

impl World {
    /// The trace of all that has happened, and what is left of the processes. The entries are moved, and none is copied.
    pub fn over(self, alloc: Global) -> Result<(Trace, Aftermath), NoMemory>
        requires { IsSoundWorld self }
        ensures { (app : App) (trace : Entries) → IsTrue (is_sound app) → WorldStands app self trace
            → IfOk result (λ over. (over.0 ≡ trace) × IsAftermathOf app trace over.1) }
    {
        let ends = self.processes.ends(alloc, &self)?;
        let histories = histories(alloc, self.objects)?;
        let trace = merge(alloc, histories)?;
        let trail = self.trail;
        Ok((trace, Aftermath { ends, trail }))
    }
}

// The histories of the objects.
fn histories(alloc: Global, objects: Vec<Recorded<Object>>) -> Result<Histories, NoMemory>
    ensures { IfOk result (λ hs. map (λ h. h.items) hs.items ≡ histories_of objects.items) }
{
    let mut histories = List::new(alloc);
    for recorded in objects {
        histories.add(history_of(recorded))?;
    }
    Ok(histories)
}

// The history of a machine, which is given up.
fn history_of<M: Machine + Drop>(recorded: Recorded<M>) -> History
    ensures { result.items ≡ recorded.history }
{
    let (_, history) = recorded.into_parts();
    history
}
