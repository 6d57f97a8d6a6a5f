ghost use Rattle.std.specs.Prelude.{◌≡◌, ◌<◌, None, [], unwrap_or, IfOk, OnOk};
ghost use Rattle.anti_app.specs.declared.app.App.{App};
ghost use Rattle.anti_app.specs.Objects.{body_of};
ghost use Rattle.anti_app.specs.Running.{CanRun};
ghost use Rattle.anti_proc.specs.declared.given.Given.{Given};
ghost use Rattle.anti_proc.specs.declared.variables.Binding.{Binding};
ghost use Rattle.std.specs.Option.{option_map_or};
ghost use Rattle.anti_proc.specs.Local.{Local, set};
ghost use Rattle.anti_proc.specs.Meaning.{after_read, after_reply, after_write, body_tree, task_tree};
ghost use Rattle.anti_proc.specs.Trees.{branch};
ghost use Rattle.anti_proc.specs.inner.Going.{going_tree};
ghost use Rattle.anti_proc.specs.inner.Running.{AdvanceHasSpans, HasSpans, LifeHasSpans};
ghost use Rattle.anti_proc.specs.inner.Standing.{full_in, going, life_tree, local_by, local_in, local_of, run_after, run_going, run_of, setting, setting_in, stage_or, stage_tree, variables_in};
ghost use Rattle.anti_proc.specs.inner.Statements.{came_by};

use crate::changes::{Changes, Since, first_variables, follow};
use crate::cursor::Cursor;
use crate::end::BodyEnd;
use crate::given::Given;
use crate::messages::hear;
use crate::next::{After, Next, Stage, look_of};
use crate::statements::{finds_none, is_idle};
use crate::task::Task;
use crate::variables::{Binding, Variable, Variables};
use crate::way::Way;
use anti_app::{App, body_of};
use anti_ids::{Copies, Lineage, Name, NoMemory, WriteId};
use anti_kind::{Handle, Reply};
use std::alloc::Global;
use std::mem;

/// A handler between two of its calls.
#[derive(Drop)]
pub struct Run {
    pub given: Given,
    /// How it went on to its next call. What became of its variables then is in them already.
    pub at: Box<Going>,
    /// The variables that are set.
    pub variables: Variables,
}

/// A process that goes on, or has ended, and then holds nothing more.
#[derive(Drop)]
pub enum Life {
    Runs(Run),
    /// It ended by its body.
    Over(BodyEnd),
    /// Its next call did not fit on the object of this number.
    Full(u32),
}

/// How a process goes on to a further call: how far it is then, what it knows, and the call.
#[derive(Drop)]
pub struct Going {
    /// Behind the statement whose call is next.
    pub cursor: Cursor,
    pub changes: Changes,
    pub next: Next,
}

/// What a reply makes of a process. The process itself is still as it was. It is handed from call to call, so it is small.
#[derive(Drop)]
pub enum Advance {
    /// It goes on to a further call.
    Goes(Box<Going>),
    /// It ended by its body.
    Over(BodyEnd),
    /// It had ended, since a call did not fit on the object of this number.
    Full(u32),
}

impl<'a> Way<'a> {
    // Goes on to the next call of the body, past the statements that make none.
    fn settle(&mut self) -> Result<Stage, NoMemory>
        requires app { CanRun self.old.app.now }
        requires spans { HasSpans self.old.app.now self.old.given.now.role self.old.cursor
            self.old.changes.span }
        ensures goes { IfOk result (λ stage.
            stage_tree stage (setting_in self.old) (local_in self.new)
            (going self.old.app.now self.old.given.now self.new.cursor)
            ≡ going self.old.app.now self.old.given.now self.old.cursor (local_in self.old)) }
        ensures spans { OnOk result (HasSpans self.old.app.now self.old.given.now.role
            self.new.cursor self.new.changes.span) }
        ensures before { self.new.before ≡ self.old.before }
    {
        let body = body_of(self.app, self.given.role.service, self.given.role.handler);
        // a barrier found that it makes no look, and what is carried brings none since
        let mut none_here = false;
        while let Some(statement) = self.cursor.next_line(body) {
            if let Some(quiet) = self.repeat_quietly(statement, none_here)? {
                none_here = self.take(quiet);
                continue;
            }
            let turns = self.turns_of(statement);
            self.cursor.enter(turns)?;
            if is_idle(statement, none_here) {
                continue;
            }
            match self.run(statement)? {
                Some(stage) => return Ok(stage),
                None => none_here = finds_none(statement, none_here),
            }
        }
        self.ends()
    }

    // How it goes on to the call that is next, or how it ends.
    fn going(self, stage: Stage) -> Result<Result<Box<Going>, BodyEnd>, NoMemory>
        ensures goes { let way = self.entry in IfOk result (λ gone. (app : App) (given : Given)
            → going_tree app given way.before.now gone
            ≡ stage_tree stage (setting app given) (local_in way) (going app given way.cursor)) }
        ensures spans { let way = self.entry in IfOk result (λ gone. IfOk gone (λ g.
            (g.value.cursor ≡ way.cursor) × (g.value.changes.span ≡ way.changes.span))) }
    {
        let Way {
            given,
            cursor,
            changes,
            ..
        } = self;
        let next = match stage {
            Stage::Over(end) => return Ok(Err(end)),
            Stage::Asks(next) => next,
        };
        let going = Going {
            cursor,
            changes,
            next,
        };
        match Box::new(given.alloc, going) {
            Ok(going) => Ok(Ok(going)),
            Err(_) => Err(NoMemory),
        }
    }

    // The call or the end that is given, or, where none is, the one to which its body goes on.
    fn go(&mut self, stage: Option<Stage>) -> Result<Stage, NoMemory>
        requires app { CanRun self.old.app.now }
        requires spans { HasSpans self.old.app.now self.old.given.now.role self.old.cursor
            self.old.changes.span }
        ensures goes { IfOk result (λ next.
            stage_tree next (setting_in self.old) (local_in self.new)
            (going self.old.app.now self.old.given.now self.new.cursor)
            ≡ stage_or stage (setting_in self.old) (local_in self.old)
            (going self.old.app.now self.old.given.now self.old.cursor)) }
        ensures spans { OnOk result (HasSpans self.old.app.now self.old.given.now.role
            self.new.cursor self.new.changes.span) }
        ensures before { self.new.before ≡ self.old.before }
    {
        match stage {
            Some(stage) => Ok(stage),
            None => self.settle(),
        }
    }
}

/// What a process is that begins a task.
pub fn begun(alloc: Global, app: &App, task: Task) -> Result<Life, NoMemory>
    requires { CanRun app.now }
    ensures tree { IfOk result (λ life. life_tree app.now life ≡ task_tree app.now task) }
    ensures spans { IfOk result (λ life. LifeHasSpans app.now life) }
    ensures full { IfOk result (λ life. full_in life ≡ None) }
{
    let Task {
        role,
        input,
        carried,
    } = task;
    let Some(carried) = carried else {
        return Ok(Life::Over(BodyEnd::LineageFull));
    };
    let given = Given { alloc, role, input };
    first_run(app, given, Changes::first(alloc, carried))
}

// What a process is that begins its body, in its first span, and knows this.
fn first_run(app: &App, given: Given, changes: Changes) -> Result<Life, NoMemory>
    requires app { CanRun app.now }
    requires first { changes.span ≡ 1 }
    ensures tree { IfOk result (λ life. life_tree app.now life
        ≡ body_tree (body_of app.now given.role.service given.role.handler)
        (setting app.now given) (local_by changes [])) }
    ensures spans { IfOk result (λ life. LifeHasSpans app.now life) }
    ensures full { IfOk result (λ life. full_in life ≡ None) }
{
    let Ok(gone) = set_out(app, &given, changes) else {
        return Err(NoMemory);
    };
    match gone {
        Err(end) => Ok(Life::Over(end)),
        Ok(mut at) => {
            let since = mem::replace(&mut at.changes.since, Since::Same);
            let Ok(variables) = first_variables(given.alloc, since) else {
                return Err(NoMemory);
            };
            Ok(Life::Runs(Run {
                given,
                at,
                variables,
            }))
        }
    }
}

// How a process that begins its body goes on to its first call, or how it ends before.
fn set_out<'a>(
    app: &'a App,
    given: &'a Given,
    changes: Changes,
) -> Result<Result<Box<Going>, BodyEnd>, NoMemory>
    requires app { CanRun app.now }
    requires first { changes.span ≡ 1 }
    ensures tree { IfOk result (λ gone. going_tree app.now given.now [] gone
        ≡ body_tree (body_of app.now given.now.role.service given.now.role.handler)
        (setting app.now given.now) (local_by changes [])) }
    ensures spans { IfOk result (λ gone. IfOk gone (λ g.
        HasSpans app.now given.now.role g.value.cursor g.value.changes.span)) }
{
    let cursor = Cursor::start(given.alloc);
    let mut way = Way {
        app,
        given,
        before: &[],
        cursor,
        changes,
    };
    let stage = way.go(None)?;
    way.going(stage)
}

impl Run {
    // What it knows as it sets out to its next call.
    fn changes(&self, since: Since) -> Result<Changes, NoMemory>
        ensures { IfOk result (λ c. local_by c self.now.variables.items
            ≡ record (local_of self.now) {
              variables = variables_in since
                  self.now.variables.items;
            }) }
    {
        let known = &self.at.changes;
        let carried = known.carried.copy(self.given.alloc)?;
        let reply = known.reply.copy(self.given.alloc)?;
        Ok(Changes {
            span: known.span,
            stopped: known.stopped,
            carried,
            reply,
            since,
        })
    }

    // What becomes of the process by some changes and the call or the end that is given, or, where none is, by what its body does then.
    fn go_on<'a>(
        &'a self,
        app: &'a App,
        changes: Changes,
        stage: Option<Stage>,
    ) -> Result<Advance, NoMemory>
        requires app { CanRun app.now }
        requires spans { HasSpans app.now self.now.given.role self.now.at.value.cursor changes.span }
        ensures goes { IfOk result (λ a. run_after app.now self.now a
            ≡ stage_or stage (setting app.now self.now.given)
            (local_by changes self.now.variables.items)
            (going app.now self.now.given self.now.at.value.cursor)) }
        ensures spans { IfOk result (λ a. AdvanceHasSpans app.now (Life.Runs self.now) a) }
    {
        let Ok(cursor) = self.at.cursor.copy(self.given.alloc) else {
            return Err(NoMemory);
        };
        let before = self.variables.as_slice();
        let mut way = Way {
            app,
            given: &self.given,
            before,
            cursor,
            changes,
        };
        let Ok(stage) = way.go(stage) else {
            return Err(NoMemory);
        };
        let Ok(gone) = way.going(stage) else {
            return Err(NoMemory);
        };
        match gone {
            Err(end) => Ok(Advance::Over(end)),
            Ok(going) => Ok(Advance::Goes(going)),
        }
    }

    // What a variable holds of a write that it made. Where the reply does not tell what is kept, that is what was handed in.
    fn written(&self, id: &WriteId, over: &Option<Handle<Lineage>>) -> Result<Binding, NoMemory>
        ensures { IfOk result (λ held. held
            ≡ Binding.Wrote id.now (unwrap_or over.now self.now.at.value.changes.carried)) }
    {
        let kept = match over {
            Some(kept) => kept.get(),
            None => self.at.changes.carried.lineage(),
        };
        let lineage = kept.copy(self.given.alloc)?;
        Ok(Binding::Wrote { id: *id, lineage })
    }

    // What becomes of the variables by a write that it made.
    fn since_write(
        &self,
        id: &WriteId,
        over: &Option<Handle<Lineage>>,
        variable: Option<Name>,
    ) -> Result<Since, NoMemory>
        ensures { IfOk result (λ since. (l : Local) → record l { variables = variables_in since l.variables }
            ≡ option_map_or (λ name. set name (Binding.Wrote id.now (unwrap_or over.now self.now.at.value.changes.carried)) l) variable l) }
    {
        let Some(name) = variable else {
            return Ok(Since::Same);
        };
        let held = self.written(id, over)?;
        Ok(Since::Set(Variable { name, held }))
    }

    // What becomes of it with a write that it made.
    fn holding_write(
        &self,
        app: &App,
        id: &WriteId,
        over: &Option<Handle<Lineage>>,
        variable: Option<Name>,
        untracked: bool,
    ) -> Result<Advance, NoMemory>
        requires app { CanRun app.now }
        requires spans { HasSpans app.now self.now.given.role self.now.at.value.cursor self.now.at.value.changes.span }
        ensures goes { IfOk result (λ a. run_after app.now self.now a
            ≡ after_write id.now.store variable untracked (local_of self.now)
            (going app.now self.now.given self.now.at.value.cursor) (Reply.Written id.now.key id.now.version over.now)) }
        ensures spans { IfOk result (λ a. AdvanceHasSpans app.now (Life.Runs self.now) a) }
    {
        let since = self.since_write(id, over, variable)?;
        let mut changes = self.changes(since)?;
        if untracked {
            return self.go_on(app, changes, None);
        }
        let stage = changes.add_write(id, over)?;
        self.go_on(app, changes, stage)
    }

    // What the reply to a write makes of it.
    fn wrote(
        &self,
        app: &App,
        variable: Option<Name>,
        untracked: bool,
        reply: &Reply,
    ) -> Result<Advance, NoMemory>
        requires app { CanRun app.now }
        requires spans { HasSpans app.now self.now.given.role self.now.at.value.cursor self.now.at.value.changes.span }
        ensures goes { IfOk result (λ a. run_after app.now self.now a
            ≡ after_write self.now.at.value.next.object variable untracked (local_of self.now)
            (going app.now self.now.given self.now.at.value.cursor) reply.now) }
        ensures spans { IfOk result (λ a. AdvanceHasSpans app.now (Life.Runs self.now) a) }
    {
        match reply {
            Reply::Written { key, version, over } => {
                let id = WriteId {
                    store: self.at.next.object,
                    key: *key.get(),
                    version: *version,
                };
                self.holding_write(app, &id, over, variable, untracked)
            }
            _ => self.passed(app, None),
        }
    }

    // What the reply to a read, a scan or a poll makes of it.
    fn saw(&self, app: &App, variable: Name, reply: &Reply) -> Result<Advance, NoMemory>
        requires app { CanRun app.now }
        requires spans { HasSpans app.now self.now.given.role self.now.at.value.cursor self.now.at.value.changes.span }
        ensures goes { IfOk result (λ a. run_after app.now self.now a
            ≡ after_read self.now.at.value.next.object variable (local_of self.now)
            (going app.now self.now.given self.now.at.value.cursor) reply.now) }
        ensures spans { IfOk result (λ a. AdvanceHasSpans app.now (Life.Runs self.now) a) }
    {
        let since = match reply {
            Reply::Shown(rows) => Since::Set(Variable {
                name: variable,
                held: Binding::Saw {
                    store: self.at.next.object,
                    rows: rows.copy(self.given.alloc)?,
                },
            }),
            _ => Since::Same,
        };
        let changes = self.changes(since)?;
        self.go_on(app, changes, None)
    }

    // What the reply to a call of a handler makes of it, which brings a lineage.
    fn heard(
        &self,
        app: &App,
        variable: Name,
        brought: &Lineage,
        reply: &Reply,
    ) -> Result<Advance, NoMemory>
        requires app { CanRun app.now }
        requires spans { HasSpans app.now self.now.given.role self.now.at.value.cursor self.now.at.value.changes.span }
        requires brought { brought.now ≡ came_by app.now reply.now }
        ensures goes { IfOk result (λ a. run_after app.now self.now a
            ≡ after_reply (setting app.now self.now.given) variable (local_of self.now)
            (going app.now self.now.given self.now.at.value.cursor) reply.now) }
        ensures spans { IfOk result (λ a. AdvanceHasSpans app.now (Life.Runs self.now) a) }
    {
        let Reply::Got { message, .. } = reply else {
            return self.passed(app, None);
        };
        let value = message.get().value.copy(self.given.alloc)?;
        let since = Since::Set(Variable {
            name: variable,
            held: Binding::Heard(value),
        });
        let mut changes = self.changes(since)?;
        let stage = changes.carry(brought)?;
        self.go_on(app, changes, stage)
    }

    // What becomes of it where nothing changes, by the call that is given, or, where none is, by what its body does then.
    fn passed(&self, app: &App, stage: Option<Stage>) -> Result<Advance, NoMemory>
        requires app { CanRun app.now }
        requires spans { HasSpans app.now self.now.given.role self.now.at.value.cursor self.now.at.value.changes.span }
        ensures goes { IfOk result (λ a. run_after app.now self.now a
            ≡ stage_or stage (setting app.now self.now.given) (local_of self.now)
            (going app.now self.now.given self.now.at.value.cursor)) }
        ensures spans { IfOk result (λ a. AdvanceHasSpans app.now (Life.Runs self.now) a) }
    {
        let changes = self.changes(Since::Same)?;
        self.go_on(app, changes, stage)
    }

    /// What the reply to its next call makes of it, which brings a lineage.
    pub fn after(&self, app: &App, brought: &Lineage, reply: &Reply) -> Result<Advance, NoMemory>
        requires app { CanRun app.now }
        requires spans { HasSpans app.now self.now.given.role self.now.at.value.cursor self.now.at.value.changes.span }
        requires brought { brought.now ≡ came_by app.now reply.now }
        ensures goes { IfOk result (λ a. run_after app.now self.now a
            ≡ branch (run_of app.now self.now) reply.now) }
        ensures spans { IfOk result (λ a. AdvanceHasSpans app.now (Life.Runs self.now) a) }
    {
        match &self.at.next.after {
            After::Wrote {
                variable,
                untracked,
            } => self.wrote(app, *variable, *untracked, reply),
            After::Saw { variable } => self.saw(app, *variable, reply),
            After::Looked { later, dry } => {
                let left = later.copy(self.given.alloc)?;
                self.passed(app, look_of(left, self.given.role.region, *dry))
            }
            After::Posted { variable } => {
                self.passed(app, hear(self.at.next.object, *variable, reply))
            }
            After::Heard { variable } => self.heard(app, *variable, brought, reply),
            After::Left(end) => Ok(Advance::Over(*end)),
        }
    }

    /// Takes over how it goes on, where there is room for one variable more. It takes no memory.
    pub fn take(&mut self, going: Box<Going>)
        requires { 0 < self.old.variables.spare }
        ensures tree { (app : App) → run_of app self.new ≡ run_going app self.old going.value }
        ensures spans { (app : App) → HasSpans app self.old.given.role going.value.cursor going.value.changes.span
            → LifeHasSpans app (Life.Runs self.new) }
    {
        self.at = going;
        let since = mem::replace(&mut self.at.changes.since, Since::Same);
        follow(&mut self.variables, self.given.alloc, since);
    }
}
