ghost use Rattle.std.specs.Prelude.{◌≡◌, ◌+◌, ◌^◌, ◌<◌, ◌≤◌, None, IfOk, OnOk};
ghost use Rattle.anti_app.specs.Objects.{inbox_of, store_number, stores_here};
ghost use Rattle.anti_app.specs.Running.{CanRun};
ghost use Rattle.anti_ids.specs.List.{plain};
ghost use Rattle.anti_lang.specs.Bodies.{step_of};
ghost use Rattle.anti_lang.specs.Program as program;
ghost use Rattle.anti_lang.specs.Spans.{spans_in};
ghost use Rattle.anti_shim.specs.Plans.{plan};
ghost use Rattle.anti_proc.specs.Local.{text_of};
ghost use Rattle.anti_proc.specs.Meaning.{Go, after_read, asks, looks, planned, post_call};
ghost use Rattle.anti_proc.specs.inner.Standing.{local_in, setting_in, stage_or};
ghost use Rattle.anti_proc.specs.inner.Statements.{ComesTo, finds_none, is_idle, own_spans, turns_of};

use crate::end::BodyEnd;
use crate::next::{After, Next, Stage, last_first, look_of};
use crate::way::Way;
use anti_app::{inbox_of, store_number, stores_here};
use anti_ids::{Copies, Lineage, MOST_DEPTH, Name, NoMemory, Value};
use anti_kind::{Call, Handle, MessageKind};
use anti_lang::{KeyWord, Statement, ValueWord};
use anti_shim::{Looks, plan};

/// Whether a statement does nothing beside its block. A barrier does nothing where none of the ids that are carried is of a store here.
pub fn is_idle(statement: &Statement, none_here: bool) -> bool
    ensures { result ≡ is_idle (step_of statement.now) none_here }
{
    match statement {
        Statement::Repeat { .. } => true,
        Statement::IfAbsent { .. } => true,
        Statement::Barrier => none_here,
        Statement::DryRun => none_here,
        _ => false,
    }
}

/// Whether none of the ids that are carried is of a store here, behind a statement that came to no call, by whether that is known before it.
pub fn finds_none(statement: &Statement, none_here: bool) -> bool
    ensures { result ≡ finds_none (step_of statement.now) none_here }
{
    match statement {
        Statement::Barrier => true,
        Statement::DryRun => true,
        Statement::Remove(_) => none_here,
        Statement::Reply(_) => none_here,
        _ => false,
    }
}

impl<'a> Way<'a> {
    // The call that writes a value under a key, with what the process carries.
    fn write_call(&self, key: Name, value: Value) -> Result<Call, NoMemory>
        ensures { IfOk result (λ call. call ≡ Call.Write key value self.now.changes.carried) }
    {
        let alloc = self.given.alloc;
        let key = Handle::new(alloc, key)?;
        let lineage = Handle::new(alloc, self.changes.carried.lineage().copy(alloc)?)?;
        Ok(Call::Write {
            key,
            value,
            lineage,
        })
    }

    // A write to a store, where its key is one.
    fn write(
        &self,
        store: &Name,
        key: &KeyWord,
        value: &ValueWord,
        variable: Option<Name>,
        untracked: bool,
    ) -> Result<Option<Stage>, NoMemory>
        requires { CanRun self.now.app.now }
        ensures { IfOk result (λ stage.
            ComesTo (program.Write store.now key.now value.now variable untracked) self.now self.now
            stage) }
    {
        let Some(key) = self.plain_key(key)? else {
            return self.nack(BodyEnd::BadKey);
        };
        let value = self.text_of(value)?;
        let call = self.write_call(key, value)?;
        Ok(Some(Stage::Asks(Next {
            object: store_number(self.app, store),
            call,
            after: After::Wrote {
                variable,
                untracked,
            },
        })))
    }

    // A call at a store, of which a variable holds what it shows.
    fn see(&self, store: &Name, call: Call, variable: Name) -> Option<Stage>
        requires { CanRun self.now.app.now }
        ensures { (go : Go) → let object = store_number self.now.app.now store.now in
            stage_or result (setting_in self.now) (local_in self.now) go
            ≡ asks object call None (local_in self.now)
            (after_read object variable (local_in self.now) go) }
    {
        Some(Stage::Asks(Next {
            object: store_number(self.app, store),
            call,
            after: After::Saw { variable },
        }))
    }

    // A read of a key of a store, where it is one.
    fn read(&self, store: &Name, key: &KeyWord, variable: Name) -> Result<Option<Stage>, NoMemory>
        requires { CanRun self.now.app.now }
        ensures { IfOk result (λ stage.
            ComesTo (program.Read store.now key.now variable) self.now self.now stage) }
    {
        let region = self.given.role.region;
        match self.plain_key(key)? {
            Some(key) => Ok(self.see(store, Call::Read { region, key }, variable)),
            None => self.nack(BodyEnd::BadKey),
        }
    }

    // A poll of a cell of a store, where its key is one.
    fn poll(&self, store: &Name, key: &KeyWord, variable: Name) -> Result<Option<Stage>, NoMemory>
        requires { CanRun self.now.app.now }
        ensures { IfOk result (λ stage.
            ComesTo (program.Poll store.now key.now variable) self.now self.now stage) }
    {
        let region = self.given.role.region;
        match self.cell_key(key)? {
            Some(key) => Ok(self.see(store, Call::Poll { region, key }, variable)),
            None => self.nack(BodyEnd::BadKey),
        }
    }

    // A scan of the keys of a store with a prefix.
    fn scan(&self, store: &Name, prefix: Name, variable: Name) -> Option<Stage>
        requires { CanRun self.now.app.now }
        ensures { ComesTo (program.Scan store.now prefix variable) self.now self.now result }
    {
        let region = self.given.role.region;
        self.see(store, Call::Scan { region, prefix }, variable)
    }

    // A message to a handler of a service, where it would not be too deep.
    fn post(
        &mut self,
        service: &Name,
        kind: MessageKind,
        handler: Name,
        value: &ValueWord,
        variable: Option<Name>,
    ) -> Result<Option<Stage>, NoMemory>
        requires { CanRun self.old.app.now }
        ensures goes { IfOk result (λ stage. (go : Go)
            → stage_or stage (setting_in self.old) (local_in self.old) go
            ≡ post_call (inbox_of self.old.app.now service.now) kind handler
            (text_of (setting_in self.old) (local_in self.old) value.now) variable
            (setting_in self.old) (local_in self.old) go) }
        ensures same { self.new ≡ self.old }
    {
        if self.given.role.depth >= MOST_DEPTH {
            return self.nack(BodyEnd::Depth);
        }
        let value = self.text_of(value)?;
        let message = self.message(kind, handler, value)?;
        Ok(Some(Stage::Asks(Next {
            object: inbox_of(self.app, service),
            call: Call::Post { message },
            after: After::Posted { variable },
        })))
    }

    /// The looks of a barrier by what is carried.
    pub fn planned(&self, carried: &Lineage) -> Result<Looks, NoMemory>
        requires { CanRun self.now.app.now }
        ensures { IfOk result (λ looks. looks ≡ plain (plan (stores_here self.now.app.now
            self.now.given.now.role.region) carried.now)) }
    {
        let alloc = self.given.alloc;
        let here = stores_here(alloc, self.app, self.given.role.region)?;
        plan(alloc, here.as_slice(), carried)
    }

    // The first look of a barrier; `None` where it makes none.
    fn first_look(&self, dry: bool) -> Result<Option<Stage>, NoMemory>
        requires { CanRun self.now.app.now }
        ensures { IfOk result (λ stage. (go : Go)
            → stage_or stage (setting_in self.now) (local_in self.now) go
            ≡ looks self.now.given.now.role.region dry (planned (setting_in self.now)
            (local_in self.now)) (local_in self.now) go) }
    {
        let planned = self.planned(self.changes.carried.lineage())?;
        let left = last_first(self.given.alloc, planned)?;
        Ok(look_of(left, self.given.role.region, dry))
    }

    /// How many times the block of a statement is run: not at all where it opens none.
    pub fn turns_of(&self, statement: &Statement) -> u32
        ensures { result ≡ turns_of (step_of statement.now) (local_in self.now) }
    {
        match statement {
            Statement::Repeat { count, .. } => *count,
            Statement::IfAbsent { variable, .. } if self.is_absent(variable) => 1,
            _ => 0,
        }
    }

    /// Runs a statement as far as its first call. Its block is run behind it.
    pub fn run(&mut self, statement: &Statement) -> Result<Option<Stage>, NoMemory>
        requires app { CanRun self.old.app.now }
        requires spans { self.old.changes.span + spans_in (step_of statement.now) < 2 ^ 32 }
        ensures goes { IfOk result (λ stage.
            ComesTo (step_of statement.now) self.old self.new stage) }
        ensures spans { OnOk result
            (self.new.changes.span ≤ self.old.changes.span + own_spans (step_of statement.now)) }
        ensures same { self.new ≡ record self.old { changes = self.new.changes } }
    {
        match statement {
            Statement::Write {
                store,
                key,
                value,
                variable,
                untracked,
            } => self.write(store, key, value, *variable, *untracked),
            Statement::Append(variable) => self.add(variable),
            Statement::Remove(variable) => {
                self.remove(variable);
                Ok(None)
            }
            Statement::Transfer(variable) => self.add(variable),
            Statement::Barrier => self.first_look(false),
            Statement::DryRun => self.first_look(true),
            Statement::Read {
                store,
                key,
                variable,
            } => self.read(store, key, *variable),
            Statement::Scan {
                store,
                prefix,
                variable,
            } => Ok(self.scan(store, *prefix, *variable)),
            Statement::Poll {
                store,
                key,
                variable,
            } => self.poll(store, key, *variable),
            Statement::Call {
                service,
                handler,
                value,
                variable,
            } => self.post(service, MessageKind::Call, *handler, value, Some(*variable)),
            Statement::Send {
                service,
                handler,
                value,
            } => self.post(service, MessageKind::Send, *handler, value, None),
            Statement::Reply(value) => {
                self.changes.reply = self.text_of(value)?;
                Ok(None)
            }
            Statement::Nack => self.nack(BodyEnd::Fine),
            Statement::Root => {
                self.root();
                Ok(None)
            }
            Statement::Stop => {
                self.stop();
                Ok(None)
            }
            Statement::Repeat { .. } => Ok(None),
            Statement::IfAbsent { .. } => Ok(None),
        }
    }
}
