ghost use Rattle.std.specs.Prelude.{◌≡◌, ◌<◌, [], length, slice_get, option_map, IfOk, IfSome, OnOk};
ghost use Rattle.anti_app.specs.declared.app.App.{App};
ghost use Rattle.anti_proc.specs.Trees.{ask_of};
ghost use Rattle.anti_proc.specs.inner.Standing.{process_of};
ghost use Rattle.anti_trace.specs.inner.Trails.{HasRoomAt, IsBare, TrailBecomes, footprint_in, leaves_trail, trail_at, with_footprint};

use anti_ids::{Copies, Lineage, NoMemory};
use anti_kind::Call;
use anti_proc::Process;
use std::alloc::Global;

/// Whether what a process carries into a call is kept: into a read, a look and a post. A write has it in its own call, and nothing is to
/// be carried into another.
pub fn leaves_trail(call: &Call) -> bool
    ensures { result ≡ leaves_trail call.now }
{
    match call {
        Call::Read { .. } | Call::Scan { .. } | Call::Poll { .. } => true,
        Call::Look { .. } | Call::Post { .. } => true,
        _ => false,
    }
}

/// What processes carried into the reads, looks and posts of one object.
#[derive(Drop)]
pub struct OnObject {
    pub(crate) carried: Vec<Lineage>,
}

/// What processes carried into their reads, looks and posts: of each object, in the order of its history. One that is not kept holds nothing.
pub struct Trail {
    pub(crate) is_kept: bool,
    pub(crate) at: Vec<OnObject>,
}

// By hand, so that no caller sees the fields.
impl Drop for Trail {
    fn drop(self) {
        let Trail { is_kept: _, at } = self;
        drop(at);
    }
}

impl OnObject {
    fn new(alloc: Global) -> OnObject
        ensures { result.carried.items ≡ [] }
    {
        OnObject {
            carried: Vec::new(alloc),
        }
    }
}

impl Trail {
    /// The trail of so many objects, which holds nothing yet, and stays so where it is not kept.
    pub fn new(alloc: Global, count: usize, is_kept: bool) -> Result<Trail, NoMemory>
        ensures { IfOk result (λ t. IsBare count t.at.items × (t.is_kept ≡ is_kept)) }
    {
        let mut at = Vec::with_capacity(alloc, count)?;
        for _ in 0..count {
            at.push_reserved(OnObject::new(alloc));
        }
        Ok(Trail { is_kept, at })
    }

    /// Whether it is kept.
    pub fn is_kept(&self) -> bool
        ensures { result ≡ self.now.is_kept }
    {
        self.is_kept
    }

    /// The lineage at an index, counted from 0, among those that were carried into the reads, looks and posts of an object. It takes no
    /// memory.
    pub fn get(&self, object: u32, index: usize) -> Option<&Lineage>
        ensures { option_map (λ ids. ids.now) result ≡ slice_get (trail_at self.now object) index }
    {
        match self.at.get(object as usize) {
            Some(here) => here.carried.get(index),
            None => None,
        }
    }

    // Makes room for one lineage more at an object.
    fn reserve(&mut self, object: u32) -> Result<(), NoMemory>
        requires { object < length self.old.at.items }
        ensures same { TrailBecomes self.old self.new object (trail_at self.old object) }
        ensures room { OnOk result (HasRoomAt self.new object) }
    {
        let here = &mut self.at[object as usize];
        here.carried.reserve(1)?;
        Ok(())
    }

    /// A copy of what a process carries into its next call at an object, and room for it there, where the call leaves a trail and this is
    /// kept.
    pub fn prepare(
        &mut self,
        alloc: Global,
        object: u32,
        process: &Process,
    ) -> Result<Option<Lineage>, NoMemory>
        requires { object < length self.old.at.items }
        ensures same { TrailBecomes self.old self.new object (trail_at self.old object) }
        ensures room { IfOk result (λ carried. IfSome carried (λ _. HasRoomAt self.new object)) }
        ensures carried { (app : App) → IfOk result (λ carried. carried
            ≡ footprint_in self.old (ask_of (process_of app process.now))) }
    {
        if !self.is_kept {
            return Ok(None);
        }
        match process.next() {
            Some(asked) if leaves_trail(asked.call) => {
                self.reserve(object)?;
                Ok(Some(asked.carried.copy(alloc)?))
            }
            Some(_) => Ok(None),
            None => Ok(None),
        }
    }

    /// Adds what was carried into the next entry of an object, where there is any, and room for it. It takes no memory.
    pub fn put(&mut self, object: u32, carried: Option<Lineage>)
        requires object { object < length self.old.at.items }
        requires room { IfSome carried (λ _. HasRoomAt self.old object) }
        ensures { TrailBecomes self.old self.new object (with_footprint (trail_at self.old object) carried) }
    {
        let Some(ids) = carried else {
            return;
        };
        let here = &mut self.at[object as usize];
        here.carried.push_reserved(ids);
    }
}
