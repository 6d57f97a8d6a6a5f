ghost use Rattle.std.specs.Prelude.{◌≡◌, ◌++◌, All, map, IfOk, OnOk, IsTrue};
ghost use Rattle.anti_app.specs.declared.app.App.{App};
ghost use Rattle.anti_app.specs.Sound.{is_sound};
ghost use Rattle.anti_trace.specs.Histories.{Entries};
ghost use Rattle.anti_trace.specs.Legal.{IsLegalTrace};
ghost use Rattle.anti_trace.specs.Ends.{end_in, ends_of};
ghost use Rattle.anti_trace.specs.inner.Living.{AreProcessesOf, LivesItself, lists};
ghost use Rattle.anti_trace.specs.inner.Shown.{shown_end};
ghost use Rattle.anti_proc.specs.inner.Standing.{birth_of};

use crate::objects::EndOfObjects;
use crate::processes::Processes;
use anti_ids::{List, NoMemory};
use anti_kind::Birth;
use anti_proc::{End, Process};
use std::alloc::Global;

/// A process, and how it ended.
#[derive(Clone, Copy)]
pub struct ProcessEnd {
    /// The entry that started it.
    pub birth: Birth,
    /// The number of its service, counted from 0.
    pub service: usize,
    /// The number of its handler among those of the service, counted from 0.
    pub handler: usize,
    /// How it ended; `None` where it did not.
    pub end: Option<End>,
}

/// The processes of a trace, object by object and in the order of their births.
pub type Ends = List<ProcessEnd>;

// How a process ended, where it did, by the objects after all that happened.
fn ended<T: EndOfObjects>(objects: &T, process: &Process) -> Option<End>
    ensures { (app : App) (trace : Entries) → IsTrue (is_sound app) → IsLegalTrace app trace
        → LivesItself app trace process.now → T.After objects.now app trace
        → result ≡ end_in app trace (birth_of process.now) }
{
    match process.next() {
        Some(asked) if objects.is_full(asked.object, asked.call) => {
            Some(End::StoreFull(asked.object))
        }
        Some(_) => None,
        None => process.ended(),
    }
}

// A process, and how it ended.
fn shown<T: EndOfObjects>(objects: &T, process: &Process) -> ProcessEnd
    ensures { (app : App) (trace : Entries) → IsTrue (is_sound app) → IsLegalTrace app trace
        → LivesItself app trace process.now → T.After objects.now app trace
        → result ≡ shown_end app trace process.now }
{
    let role = process.role();
    ProcessEnd {
        birth: process.birth(),
        service: role.service,
        handler: role.handler,
        end: ended(objects, process),
    }
}

// Adds processes and how they ended.
fn add_ends<T: EndOfObjects>(
    ends: &mut Ends,
    objects: &T,
    processes: &[Process],
) -> Result<(), NoMemory>
    ensures { (app : App) (trace : Entries) → IsTrue (is_sound app) → IsLegalTrace app trace
        → All (LivesItself app trace) processes.now → T.After objects.now app trace
        → OnOk result (ends.new.items ≡ ends.old.items ++ map (shown_end app trace) processes.now) }
{
    for process in processes {
        match ends.push(shown(objects, process)) {
            Ok(()) => {}
            Err(_) => return Err(NoMemory),
        }
    }
    Ok(())
}

impl Processes {
    /// How each process ended by the end of a legal trace, by the objects after it.
    pub fn ends<T: EndOfObjects>(&self, alloc: Global, objects: &T) -> Result<Ends, NoMemory>
        ensures { (app : App) (trace : Entries) → IsTrue (is_sound app) → IsLegalTrace app trace
            → AreProcessesOf app (lists self.now) trace → T.After objects.now app trace
            → IfOk result (λ ends. ends.items ≡ ends_of app trace) }
    {
        let mut ends = List::new(alloc);
        for here in self.at.as_slice() {
            add_ends(&mut ends, objects, here.born.as_slice())?;
        }
        Ok(ends)
    }
}
