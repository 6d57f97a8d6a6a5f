ghost use Rattle.std.specs.Prelude.{◌≡◌, ◌<◌, ℕ, All, IfOk, List as Items, [], length, map};
ghost use Rattle.anti_kind.specs.declared.entry.Entry.{Entry};
ghost use Rattle.anti_app.specs.declared.app.App.{App};
ghost use Rattle.anti_play.specs.inner.Kepts.{AreKept, history_at};
ghost use Rattle.anti_work.specs.inner.Closing.{AreClosedBy, AreSharedBy, IsClosedBy, KnowAll};
ghost use Rattle.anti_work.specs.inner.Gathering.{HaveEnded};
ghost use Rattle.anti_work.specs.inner.Joining.{HaveJoined, HaveTaken, IsDoneOf, IsOfPlace, IsTaken, passes_of};
ghost use Rattle.anti_work.specs.inner.Knowing.{AreOf};

use crate::done::Done;
use anti_ids::{List, NoMemory};
use anti_kind::History;
use anti_object::Object;
use anti_shared::{Pass, Shared};
use std::alloc::Global;

// Joins a pass into the first pass of its object.
fn join_at(shared: &[Shared<Object>], firsts: &mut Vec<Pass<Object>>, at: usize, pass: Pass<Object>)
    requires there { at < length shared.now }
    requires of { AreOf shared.now firsts.old.items }
    requires same { IsOfPlace shared.now at pass }
    ensures { IsTaken at pass firsts.old.items firsts.new.items }
{
    shared[at].join(&mut firsts[at], pass);
}

// Joins the passes of a worker into the first passes of their objects.
fn join_passes(
    shared: &[Shared<Object>],
    firsts: &mut Vec<Pass<Object>>,
    mut passes: Vec<Pass<Object>>,
)
    requires of { AreOf shared.now firsts.old.items }
    requires from { AreOf shared.now passes.items }
    ensures of { AreOf shared.now firsts.new.items }
    ensures taken { HaveTaken firsts.old.items passes.items firsts.new.items }
{
    while let Some(pass) = passes.pop() {
        let at = passes.len();
        join_at(shared, firsts, at, pass);
    }
}

// Joins the passes of all workers into the first passes of their objects, in the order of the workers.
fn join_all(shared: &[Shared<Object>], firsts: &mut Vec<Pass<Object>>, mut all: Vec<Done>)
    requires of { AreOf shared.now firsts.old.items }
    requires none { HaveJoined [] firsts.old.items }
    requires done { All (IsDoneOf shared.now) all.items }
    ensures of { AreOf shared.now firsts.new.items }
    ensures joined { HaveJoined (map passes_of all.items) firsts.new.items }
{
    all.reverse();
    while let Some(done) = all.pop() {
        let Done { passes } = done;
        join_passes(shared, firsts, passes);
    }
}

// Closes a shared object by its first pass.
fn close_at(shared: Shared<Object>, pass: Pass<Object>) -> Result<(Object, History), NoMemory>
    requires { pass.id ≡ shared.id }
    ensures { IfOk result (IsClosedBy pass) }
{
    match shared.close(pass) {
        Ok(kept) => {
            // they tell what is true of each object that was shared
            let _state = kept.state();
            let _history = kept.history();
            Ok(kept.into_parts())
        }
        // some pass is still out: nothing says of what workers give back that none is
        Err(_back) => Err(NoMemory),
    }
}

// Closes the shared objects, each by its first pass.
fn close_each(
    alloc: Global,
    mut shared: Vec<Shared<Object>>,
    mut firsts: Vec<Pass<Object>>,
) -> Result<List<(Object, History)>, NoMemory>
    requires { AreOf shared.items firsts.items }
    ensures { IfOk result (λ kepts. AreClosedBy firsts.items kepts.items) }
{
    shared.reverse();
    firsts.reverse();
    let mut kepts = List::new(alloc);
    while let Some(object) = shared.pop() {
        match firsts.pop() {
            Some(pass) => kepts.add(close_at(object, pass)?)?,
            // there is a pass for each object
            None => unreachable!(),
        }
    }
    Ok(kepts)
}

// Joins the passes of all workers into the first passes, and closes the objects. What is kept of each stands at the place of its number.
// A pass that is still out is answered as want of memory.
pub(crate) fn close_all(
    alloc: Global,
    shared: Vec<Shared<Object>>,
    mut firsts: Vec<Pass<Object>>,
    all: Vec<Done>,
) -> Result<List<(Object, History)>, NoMemory>
    requires of { AreOf shared.items firsts.items }
    requires none { HaveJoined [] firsts.items }
    requires done { All (IsDoneOf shared.items) all.items }
    ensures kept { IfOk result (λ kepts. (app : App) → AreSharedBy app shared.items → AreKept app kepts.items) }
    ensures ended { IfOk result (λ kepts. (app : App) (works : ℕ → Items Entry) → AreSharedBy app shared.items
        → KnowAll app (map passes_of all.items) works → HaveEnded app (map passes_of all.items) (history_at kepts.items) works) }
{
    join_all(shared.as_slice(), &mut firsts, all);
    close_each(alloc, shared, firsts)
}
