ghost use Rattle.std.specs.Prelude.{ℕ, ◌≡◌, ◌<◌, ◌++◌, length, position, slice_get, [], ◌∷◌, Some, IfOk, OnOk};
ghost use Rattle.anti_proc.specs.inner.Standing.{HasRoom};
ghost use Rattle.anti_trace.specs.inner.Living.{AreInOrder, AreOfSome, Becomes, Changes, HasSpare, IsAt, IsCountBefore, MakesRoom, MayMeetFull, MetFull, NoneBorn, TakesOver, born_at, is_named, lists};

use anti_ids::NoMemory;
use anti_kind::Birth;
use anti_proc::{Advance, Process};
use std::alloc::Global;

/// The processes that were born at an object, in the order of their births.
#[derive(Drop)]
pub struct AtObject {
    pub(crate) born: Vec<Process>,
}

/// The processes of a trace: for each object those that were born at it. Who goes along a trace has them go past each entry, and sees
/// each process as it is before and after its entries.
pub struct Processes {
    pub(crate) at: Vec<AtObject>,
}

// By hand, so that no caller sees the fields.
impl Drop for Processes {
    fn drop(self) {
        let Processes { at } = self;
        drop(at);
    }
}

impl AtObject {
    fn new(alloc: Global) -> AtObject
        ensures { result.born.items ≡ [] }
    {
        AtObject {
            born: Vec::new(alloc),
        }
    }
}

// How many of the first processes were born by an entry of a smaller place. They stand in the order of their births.
fn count_before(processes: &[Process], place: u32) -> usize
    requires { (object : ℕ) × AreInOrder object processes.now }
    ensures { IsCountBefore place processes.now result }
{
    let mut low = 0;
    let mut high = processes.len();
    while low < high {
        let middle = low + (high - low) / 2;
        if processes[middle].birth().place < place {
            low = middle + 1;
        } else {
            high = middle;
        }
    }
    low
}

// Where the process stands that was born by an entry.
fn position(processes: &[Process], birth: Birth) -> Option<usize>
    requires { AreInOrder birth.object processes.now }
    ensures { result ≡ position (is_named birth) processes.now }
{
    let at = count_before(processes, birth.place);
    if at == processes.len() {
        return None;
    }
    if processes[at].birth() == birth {
        Some(at)
    } else {
        None
    }
}

impl Processes {
    /// For each of so many objects the processes that were born at it: none.
    pub fn new(alloc: Global, count: usize) -> Result<Processes, NoMemory>
        ensures { IfOk result (λ all. NoneBorn count (lists all)) }
    {
        let mut at = Vec::with_capacity(alloc, count)?;
        for _ in 0..count {
            at.push_reserved(AtObject::new(alloc));
        }
        Ok(Processes { at })
    }

    /// How many processes were born at an object. It takes no memory.
    pub fn born_count(&self, object: u32) -> usize
        requires { object < length (lists self.now) }
        ensures { result ≡ length (born_at (lists self.now) object) }
    {
        self.at[object as usize].born.len()
    }

    /// The process at a place among those that were born at an object. It takes no memory.
    pub fn get(&self, object: u32, at: usize) -> &Process
        requires object { object < length (lists self.now) }
        requires at { at < length (born_at (lists self.now) object) }
        ensures { slice_get (born_at (lists self.now) object) at ≡ Some result.now }
    {
        &self.at[object as usize].born[at]
    }

    /// Where the process stands that was born by an entry, among those that were born at the entry's object. It is found by bisection, since
    /// births come in the order of their places. It takes no memory.
    pub fn find(&self, birth: Birth) -> Option<usize>
        requires { AreOfSome (lists self.now) }
        ensures { result ≡ position (is_named birth) (born_at (lists self.now) birth.object) }
    {
        let object = birth.object as usize;
        if object < self.at.len() {
            position(self.at[object].born.as_slice(), birth)
        } else {
            None
        }
    }

    /// Makes room for one process more at an object.
    pub fn reserve(&mut self, object: u32) -> Result<(), NoMemory>
        requires { object < length (lists self.old) }
        ensures changes { Changes (lists self.old) (lists self.new) object
            (born_at (lists self.old) object) }
        ensures room { OnOk result (HasSpare (lists self.new) object) }
    {
        let here = &mut self.at[object as usize];
        here.born.reserve(1)?;
        Ok(())
    }

    /// Adds a process to those that were born at an object, where there is room. It takes no memory.
    pub fn put(&mut self, object: u32, process: Process)
        requires object { object < length (lists self.old) }
        requires room { HasSpare (lists self.old) object }
        ensures { Changes (lists self.old) (lists self.new) object
            (born_at (lists self.old) object ++ process ∷ []) }
    {
        let here = &mut self.at[object as usize];
        here.born.push_reserved(process);
    }

    /// Makes the room that the next reply of a process takes.
    pub fn make_room(&mut self, object: u32, at: usize) -> Result<(), NoMemory>
        requires object { object < length (lists self.old) }
        requires at { at < length (born_at (lists self.old) object) }
        ensures becomes { Becomes MakesRoom (lists self.old) (lists self.new) object at }
        ensures room { OnOk result (IsAt HasRoom (lists self.new) object at) }
    {
        let here = &mut self.at[object as usize];
        here.born[at].make_room()
    }

    /// Has a process take over what a reply made of it, with the stamp of the entry, where there is room. It takes no memory.
    pub fn take_over(&mut self, object: u32, at: usize, stamp: u64, advance: Advance)
        requires object { object < length (lists self.old) }
        requires at { at < length (born_at (lists self.old) object) }
        requires room { IsAt HasRoom (lists self.old) object at }
        ensures { Becomes (TakesOver stamp advance) (lists self.old) (lists self.new) object at }
    {
        let here = &mut self.at[object as usize];
        here.born[at].take(stamp, advance);
    }

    /// Ends a process, whose next call did not fit on the object of a number. It takes no memory.
    pub fn end(&mut self, object: u32, at: usize, full: u32)
        requires object { object < length (lists self.old) }
        requires at { at < length (born_at (lists self.old) object) }
        requires full { IsAt (MayMeetFull full) (lists self.old) object at }
        ensures { Becomes (MetFull full) (lists self.old) (lists self.new) object at }
    {
        let here = &mut self.at[object as usize];
        here.born[at].full(full);
    }
}
