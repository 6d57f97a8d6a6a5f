ghost use Rattle.std.specs.Prelude.{◌≡◌, ◌<◌, ◌++◌, ◌∷◌, [], IfOk, OnOk, IsTrue};
ghost use Rattle.anti_app.specs.declared.app.App.{App};
ghost use Rattle.anti_app.specs.Objects.{object_count};
ghost use Rattle.anti_app.specs.Sound.{is_sound};
ghost use Rattle.anti_trace.specs.Legal.{IsLegalTrace};
ghost use Rattle.anti_trace.specs.Histories.{Entries};
ghost use Rattle.anti_trace.specs.inner.After.{AreAfter, AreBefore, AreBeforeSome, AreFirst};
ghost use Rattle.anti_object.specs.Standing.{IsNew};

use anti_app::{App, object_count};
use anti_ids::NoMemory;
use anti_kind::{Call, Entry, Machine};
use anti_object::Object;
use std::alloc::Global;

/// The objects of an application after all that happened on them in a trace.
pub trait EndOfObjects {
    ghost use Rattle.std.specs.Prelude.{◌≡◌};
    ghost use Rattle.anti_app.specs.declared.app.App.{App};
    ghost use Rattle.anti_object.specs.Starts.{start_of};
    ghost use Rattle.anti_trace.specs.Histories.{Entries};
    ghost use Rattle.anti_trace.specs.Traces.{entries_on};
    ghost use Rattle.anti_trace.specs.Ends.{is_full_after};

    ghost After: { Self → App → Entries → Type 0 };

    /// Whether a call is ready at an object, and does not fit there. At an object that is not there none is. It takes no memory.
    fn is_full(&self, object: u32, call: &Call) -> bool
        ensures { (app : App) (trace : Entries) → After self.now app trace
            → result ≡ is_full_after (entries_on object trace) call.now (start_of app object) };
}

/// The objects of an application, which went past the entries of a trace.
pub struct ObjectsAfter {
    objects: Vec<Object>,
}

// By hand, so that no caller sees the fields.
impl Drop for ObjectsAfter {
    fn drop(self) {
        let ObjectsAfter { objects } = self;
        drop(objects);
    }
}

// The object with a number, on which nothing has happened yet.
fn first_object(alloc: Global, app: &App, number: u32) -> Result<Object, NoMemory>
    requires sound { IsTrue (is_sound app.now) }
    requires there { number < object_count app.now }
    ensures { IfOk result (IsNew app.now number) }
{
    match Object::of(alloc, app, number)? {
        Some(object) => Ok(object),
        // by `there`
        None => unreachable!(),
    }
}

// The objects of an application, on which nothing has happened yet.
fn first_objects(alloc: Global, app: &App) -> Result<Vec<Object>, NoMemory>
    requires { IsTrue (is_sound app.now) }
    ensures { IfOk result (λ objects. AreFirst app.now (object_count app.now) objects.items) }
{
    let count = object_count(app);
    let mut objects = Vec::with_capacity(alloc, count as usize)?;
    for number in 0..count {
        objects.push_reserved(first_object(alloc, app, number)?);
    }
    Ok(objects)
}

// Makes the call of the next entry at its object.
fn go_past(objects: &mut Vec<Object>, entry: &Entry) -> Result<(), NoMemory>
    requires { AreBeforeSome entry.now objects.old.items }
    ensures { (app : App) (before : Entries) → AreBefore app before entry.now objects.old.items
        → OnOk result (AreAfter app (before ++ entry.now ∷ []) objects.new.items) }
{
    objects[entry.object as usize].apply(&entry.call, &entry.reply)?;
    Ok(())
}

impl ObjectsAfter {
    /// The objects of an application after a legal trace.
    pub fn of(alloc: Global, app: &App, trace: &[Entry]) -> Result<ObjectsAfter, NoMemory>
        requires sound { IsTrue (is_sound app.now) }
        requires legal { IsLegalTrace app.now trace.now }
        ensures { IfOk result (λ after. AreAfter app.now trace.now after.objects.items) }
    {
        let mut objects = first_objects(alloc, app)?;
        for entry in trace {
            go_past(&mut objects, entry)?;
        }
        Ok(ObjectsAfter { objects })
    }
}

impl EndOfObjects for ObjectsAfter {
    ghost use Rattle.anti_app.specs.declared.app.App.{App};
    ghost use Rattle.anti_trace.specs.Histories.{Entries};
    ghost use Rattle.anti_trace.specs.inner.After.{AreAfter};

    ghost After = { λ after app trace. AreAfter app trace after.objects.items };

    fn is_full(&self, object: u32, call: &Call) -> bool {
        match self.objects.get(object as usize) {
            Some(object) => object.ready(call) && !object.fits(call),
            None => false,
        }
    }
}
