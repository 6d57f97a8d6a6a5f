ghost use Rattle.std.specs.Prelude.{◌≡◌, ◌++◌, ◌∷◌, [], All, map, IfOk, OnOk, IsTrue};
ghost use Rattle.anti_app.specs.Sound.{is_sound};
ghost use Rattle.anti_app.specs.Objects.{object_count};
ghost use Rattle.anti_play.specs.inner.Standing.{WorldStands};
ghost use Rattle.anti_kind.specs.Machines.{StandsFor};
ghost use Rattle.anti_object.specs.Standing.{ObjectAt};
ghost use Rattle.anti_trace.specs.inner.After.{AreFirst};
ghost use Rattle.anti_play.specs.inner.Closing.{at_first};
ghost use Rattle.anti_play.specs.inner.Kepts.{at_last};

use crate::reading::has_reads;
use crate::world::World;
use anti_app::App;
use anti_ids::{List, NoMemory};
use anti_kind::{History, Machine, Recorded};
use anti_object::{Object, Objects};
use anti_trace::{Processes, Trail};
use std::alloc::Global;

impl World {
    /// The objects of an application, on which nothing has happened yet. Its trail is kept where some body reads: nothing is answered of
    /// spans without reads.
    pub fn new(alloc: Global, app: &App) -> Result<World, NoMemory>
        requires { IsTrue (is_sound app.now) }
        ensures { IfOk result (λ w. WorldStands app.now w []) }
    {
        let objects = all_recorded(alloc, objects(alloc, app)?)?;
        let count = objects.len();
        let processes = Processes::new(alloc, count)?;
        let trail = Trail::new(alloc, count, has_reads(app))?;
        Ok(World {
            objects,
            processes,
            trail,
            carrier: 0,
            alloc,
        })
    }
}

/// The objects of an application in their order, each at the start that the application states, with no call.
pub fn objects(alloc: Global, app: &App) -> Result<Objects, NoMemory>
    requires { IsTrue (is_sound app.now) }
    ensures { IfOk result (λ objects. AreFirst app.now (object_count app.now) objects.items) }
{
    let mut objects = List::new(alloc);
    while let Some(object) = Object::of(alloc, app, objects.len() as u32)? {
        objects.add(object)?;
    }
    Ok(objects)
}

// The objects, each with no entry.
fn all_recorded(alloc: Global, mut objects: Objects) -> Result<Vec<Recorded<Object>>, NoMemory>
    requires { All (λ object. ObjectAt object []) objects.items }
    ensures { IfOk result (λ v. v.items ≡ map at_first objects.items) }
{
    let mut recorded = Vec::new(alloc);
    while let Some(object) = objects.pop() {
        keep(alloc, &mut recorded, object)?;
    }
    recorded.reverse();
    Ok(recorded)
}

// One object more at the end, on which nothing has happened yet.
fn keep(alloc: Global, objects: &mut Vec<Recorded<Object>>, object: Object) -> Result<(), NoMemory>
    requires { ObjectAt object [] }
    ensures { OnOk result (objects.new.items ≡ objects.old.items ++ at_first object ∷ []) }
{
    keep_with(objects, object, List::new(alloc))
}

/// One object more at the end, with its history.
pub fn keep_with(
    objects: &mut Vec<Recorded<Object>>,
    object: Object,
    history: History,
) -> Result<(), NoMemory>
    requires { ObjectAt object history.items }
    ensures { OnOk result (objects.new.items ≡ objects.old.items ++ at_last (object, history) ∷ []) }
{
    let recorded = recorded(object, history)?;
    add(objects, recorded)
}

// A machine with its history. Where there is no memory both are given up.
fn recorded<M: Machine + Drop>(machine: M, history: History) -> Result<Recorded<M>, NoMemory>
    requires { StandsFor (M.start machine) (M.Stands machine) history.items }
    ensures { IfOk result (λ r. r ≡ record { machine = machine; history = history.items }) }
{
    match Recorded::of(machine, history) {
        Ok(recorded) => Ok(recorded),
        Err((_machine, _history, fault)) => Err(fault),
    }
}

/// Adds an item at the end. Where there is no memory it is given up.
pub fn add<T: Drop>(items: &mut Vec<T>, item: T) -> Result<(), NoMemory>
    ensures { OnOk result (items.new.items ≡ items.old.items ++ item ∷ []) }
{
    match items.push(item) {
        Ok(()) => Ok(()),
        Err(_) => Err(NoMemory),
    }
}
