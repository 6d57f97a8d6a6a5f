ghost use Rattle.std.specs.Prelude.{ℕ, ◌≡◌, Some, None, Err, true, false, IfOk, IfSome, IfNone, OnOk, OnErr, option_map};
ghost use Rattle.anti_app.specs.declared.app.App.{App};
ghost use Rattle.anti_app.specs.Running.{CanRun};
ghost use Rattle.anti_proc.specs.Births.{birth_at};
ghost use Rattle.anti_proc.specs.Foreign.{is_foreign};
ghost use Rattle.anti_proc.specs.Meaning.{tree_of};
ghost use Rattle.anti_proc.specs.Tasks.{role_of, task_of};
ghost use Rattle.anti_proc.specs.Asked.{IsAskedAt, end_of};
ghost use Rattle.anti_proc.specs.Trees.{Make, ask_of, branch, want_of};
ghost use Rattle.anti_proc.specs.inner.Running.{IsAdvanceOf, IsRunOf};
ghost use Rattle.anti_proc.specs.inner.Standing.{HasRoom, advanced, birth_of, clock_of, full_by, full_of, its_role, process_of};

use crate::end::{End, ProcFault, end_as};
use crate::foreign::brought;
use crate::run::{Advance, Life, begun};
use crate::task::{Role, Task};
use crate::variables::make_room;
use anti_app::App;
use anti_ids::{Lineage, NoMemory};
use anti_kind::{Birth, Call, Entry, Reply};
use std::alloc::Global;

/// The call that a process makes next, and the lineage that it carries into it. Objects are numbered from 0, first the stores and then the
/// inboxes of the services; spans are counted from 1.
#[derive(Clone, Copy)]
pub struct Asked<'a> {
    pub object: u32,
    pub span: u32,
    pub call: &'a Call,
    pub carried: &'a Lineage,
}

/// One run of a handler, between two of its calls. Each call on it is given the application with which it was born.
pub struct Process {
    alloc: Global,
    birth: Birth,
    role: Role,
    clock: u64,
    life: Life,
}

// By hand, so that no caller sees the fields.
impl Drop for Process {
    fn drop(self) {
        let Process {
            alloc: _,
            birth,
            role,
            clock: _,
            life,
        } = self;
        drop(birth);
        drop(role);
        drop(life);
    }
}

impl Process {
    /// The process that an entry of the application starts. `Foreign` comes exactly where it starts nothing: it takes no message and no
    /// row, the service has not the handler that the message names, the message is too deep, its baggage states no lineage over the
    /// stores, or an id of the row's lineage is of no store of the application.
    pub fn born(alloc: Global, app: &App, entry: &Entry) -> Result<Process, ProcFault>
        requires { CanRun app.now }
        ensures run { IfOk result (λ p. IsRunOf app.now p) }
        ensures stands { IfOk result (λ p. process_of app.now p ≡ tree_of app.now entry.now) }
        ensures clock { IfOk result (λ p. clock_of p ≡ entry.now.stamp) }
        ensures birth { IfOk result (λ p. birth_of p ≡ birth_at entry.now) }
        ensures role { IfOk result (λ p. role_of app.now entry.now ≡ Some (its_role p)) }
        ensures full { IfOk result (λ p. full_of p ≡ None) }
        ensures known { OnOk result (task_of app.now entry.now ≡ None → ⊥) }
        ensures foreign { result ≡ Err ProcFault.Foreign → task_of app.now entry.now ≡ None }
    {
        let task = Task::of(alloc, app, entry)?;
        let role = task.role;
        let life = begun(alloc, app, task)?;
        Ok(Process {
            alloc,
            birth: Birth {
                object: entry.object,
                place: entry.place,
            },
            role,
            clock: entry.stamp,
            life,
        })
    }

    /// The next call; `None` where the process has ended. It takes no memory.
    pub fn next(&self) -> Option<Asked<'_>>
        ensures some { (app : App) → IfSome result (λ asked.
            want_of (process_of app self.now) ≡ Make asked.object asked.span asked.call.now) }
        ensures carried { (app : App) → IfSome result (λ asked.
            option_map (λ ask. ask.carried) (ask_of (process_of app self.now))
            ≡ Some asked.carried.now) }
        ensures going { IfSome result (λ asked. full_of self.now ≡ None) }
        ensures none { (app : App) → IfNone result (ask_of (process_of app self.now) ≡ None) }
    {
        match &self.life {
            Life::Runs(run) => Some(Asked {
                object: run.at.next.object,
                span: run.at.changes.span,
                call: &run.at.next.call,
                carried: run.at.changes.carried.lineage(),
            }),
            _ => None,
        }
    }

    /// How the process ended, where it has no further call. It takes no memory.
    pub fn ended(&self) -> Option<End>
        ensures going { (app : App) → full_of self.now ≡ None → result
            ≡ end_of (process_of app self.now) }
        ensures full { (object : ℕ) → full_of self.now ≡ Some object → result
            ≡ Some (End.StoreFull object) }
    {
        match &self.life {
            Life::Runs(_) => None,
            Life::Over(end) => Some(end_as(*end)),
            Life::Full(object) => Some(End::StoreFull(*object)),
        }
    }

    /// What the reply to its next call makes of the process, which stays as it is. `Foreign` comes exactly where the baggage in the reply
    /// states no lineage over the stores, or an id in one of its lineages is of no store of the application.
    pub fn advance(&self, app: &App, reply: &Reply) -> Result<Advance, ProcFault>
        requires app { CanRun app.now }
        requires run { IsRunOf app.now self.now }
        ensures goes { full_of self.now ≡ None
            → IfOk result (λ a. advanced app.now self.now a
            ≡ branch (process_of app.now self.now) reply.now) }
        ensures run { IfOk result (λ a. IsAdvanceOf app.now self.now a) }
        ensures full { IfOk result (λ a. full_by a ≡ full_of self.now) }
        ensures known { OnOk result (is_foreign app.now reply.now ≡ false) }
        ensures foreign { result ≡ Err ProcFault.Foreign → is_foreign app.now reply.now ≡ true }
    {
        let brought = brought(self.alloc, app, reply)?;
        match &self.life {
            Life::Runs(run) => Ok(run.after(app, &brought, reply)?),
            Life::Over(end) => Ok(Advance::Over(*end)),
            Life::Full(object) => Ok(Advance::Full(*object)),
        }
    }

    /// Makes the room that a reply takes.
    pub fn make_room(&mut self) -> Result<(), NoMemory>
        ensures stands { (app : App) → process_of app self.new ≡ process_of app self.old }
        ensures run { (app : App) → IsRunOf app self.old → IsRunOf app self.new }
        ensures advance { (app : App) (a : Advance) → advanced app self.new a
            ≡ advanced app self.old a }
        ensures spans { (app : App) (a : Advance) → IsAdvanceOf app self.old a
            → IsAdvanceOf app self.new a }
        ensures clock { clock_of self.new ≡ clock_of self.old }
        ensures birth { birth_of self.new ≡ birth_of self.old }
        ensures role { its_role self.new ≡ its_role self.old }
        ensures full { full_of self.new ≡ full_of self.old }
        ensures room { OnOk result (HasRoom self.new) }
        ensures err { OnErr result (self.new ≡ self.old) }
    {
        match &mut self.life {
            Life::Runs(run) => make_room(&mut run.variables),
            _ => Ok(()),
        }
    }

    /// Takes over what a reply made of the process, with the stamp of the entry, where there is room. It takes no memory.
    pub fn take(&mut self, stamp: u64, advance: Advance)
        requires room { HasRoom self.old }
        ensures stands { (app : App) → process_of app self.new ≡ advanced app self.old advance }
        ensures run { (app : App) → IsAdvanceOf app self.old advance → IsRunOf app self.new }
        ensures clock { clock_of self.new ≡ stamp }
        ensures birth { birth_of self.new ≡ birth_of self.old }
        ensures role { its_role self.new ≡ its_role self.old }
        ensures full { full_by advance ≡ full_of self.old → full_of self.new ≡ full_of self.old }
    {
        self.clock = stamp;
        match advance {
            Advance::Over(end) => self.end(Life::Over(end)),
            Advance::Full(object) => self.end(Life::Full(object)),
            Advance::Goes(going) => match &mut self.life {
                Life::Runs(run) => run.take(going),
                Life::Over(_) | Life::Full(_) => {}
            },
        }
    }

    /// Takes the reply to its next call, with the stamp of the entry. `Foreign` comes exactly where the baggage in the reply states no lineage
    /// over the stores, or an id in one of its lineages is of no store of the application. After a refusal the process is as it was.
    pub fn feed(&mut self, app: &App, stamp: u64, reply: &Reply) -> Result<(), ProcFault>
        requires app { CanRun app.now }
        requires run { IsRunOf app.now self.old }
        ensures run { IsRunOf app.now self.new }
        ensures goes { full_of self.old ≡ None
            → OnOk result (process_of app.now self.new
            ≡ branch (process_of app.now self.old) reply.now) }
        ensures clock { OnOk result (clock_of self.new ≡ stamp) }
        ensures birth { birth_of self.new ≡ birth_of self.old }
        ensures role { its_role self.new ≡ its_role self.old }
        ensures full { full_of self.new ≡ full_of self.old }
        ensures known { OnOk result (is_foreign app.now reply.now ≡ false) }
        ensures foreign { result ≡ Err ProcFault.Foreign → is_foreign app.now reply.now ≡ true }
        ensures refused { OnErr result (self.new ≡ self.old) }
    {
        let advance = self.advance(app, reply)?;
        self.make_room()?;
        self.take(stamp, advance);
        Ok(())
    }

    /// Ends the process, whose next call did not fit on an object. It takes no memory.
    pub fn full(&mut self, object: u32)
        requires first { full_of self.old ≡ None }
        requires asks { (app : App) × IsAskedAt object (process_of app self.old) }
        ensures run { (app : App) → IsRunOf app self.new }
        ensures full { full_of self.new ≡ Some object }
        ensures clock { clock_of self.new ≡ clock_of self.old }
        ensures birth { birth_of self.new ≡ birth_of self.old }
        ensures role { its_role self.new ≡ its_role self.old }
    {
        self.end(Life::Full(object));
    }

    // Ends it so. What it held is let go.
    fn end(&mut self, life: Life)
        ensures { self.new ≡ record self.old { life = life } }
    {
        self.life = life;
    }

    /// The stamp of its last entry. It takes no memory.
    pub fn clock(&self) -> u64
        ensures { result ≡ clock_of self.now }
    {
        self.clock
    }

    /// The entry that started it. It takes no memory.
    pub fn birth(&self) -> Birth
        ensures { result ≡ birth_of self.now }
    {
        self.birth
    }

    /// Which handler it runs. It takes no memory.
    pub fn role(&self) -> Role
        ensures { result ≡ its_role self.now }
    {
        self.role
    }
}
