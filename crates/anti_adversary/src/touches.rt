ghost use Rattle.std.specs.Prelude.{IsTrue};
ghost use Rattle.anti_app.specs.Sound.{is_sound};

use anti_app::{App, HandlerDef, SubDef, region_of, store_number};
use anti_ids::{Name, NoMemory};
use anti_lang::{KeyWord, Statement};
use std::alloc::Global;

/// A service that reads from a store or writes to one.
#[derive(Clone, Copy)]
pub(crate) struct Touch {
    pub service: u32,
    pub store: u32,
    /// The key: none where it may be any.
    pub key: Option<Name>,
}

/// What the services of an application read and write.
#[derive(Drop)]
pub(crate) struct Touches {
    pub reads: Vec<Touch>,
    pub writes: Vec<Touch>,
}

// The key that a word of a line names: none where that may be any.
fn key_of(word: &KeyWord) -> Option<Name> {
    match word {
        KeyWord::Plain(key) => Some(*key),
        KeyWord::Input | KeyWord::Of(_) => None,
    }
}

impl Touches {
    /// What each service reads and writes; a service reads the channels of its subscriptions, too.
    pub(crate) fn of(alloc: Global, app: &App) -> Result<Touches, NoMemory>
        requires sound { IsTrue (is_sound app.now) }
    {
        let mut touches = Touches {
            reads: Vec::new(alloc),
            writes: Vec::new(alloc),
        };
        for (service, it) in app.services.as_slice().iter().enumerate() {
            touches.add_service(app, service as u32, it.handlers.as_slice())?;
        }
        touches.add_subs(app.subs.as_slice())?;
        Ok(touches)
    }

    fn add_subs(&mut self, subs: &[SubDef]) -> Result<(), NoMemory> {
        for sub in subs {
            self.reads.push(Touch {
                service: sub.service,
                store: sub.store,
                key: Some(sub.channel),
            })?;
        }
        Ok(())
    }

    fn add_service(
        &mut self,
        app: &App,
        service: u32,
        handlers: &[HandlerDef],
    ) -> Result<(), NoMemory>
        requires sound { IsTrue (is_sound app.now) }
    {
        for handler in handlers {
            self.add_body(app, service, handler.body.as_slice())?;
        }
        Ok(())
    }

    #[cycle(touching)]
    fn add_body(
        &mut self,
        app: &App,
        service: u32,
        statements: &[Statement],
    ) -> Result<(), NoMemory>
        requires sound { IsTrue (is_sound app.now) }
    {
        for statement in statements {
            self.add_statement(app, service, statement)?;
        }
        Ok(())
    }

    #[cycle(touching)]
    fn add_statement(
        &mut self,
        app: &App,
        service: u32,
        statement: &Statement,
    ) -> Result<(), NoMemory>
        requires sound { IsTrue (is_sound app.now) }
    {
        match statement {
            Statement::Repeat { body, .. } | Statement::IfAbsent { body, .. } => {
                self.add_body(app, service, body.as_slice())
            }
            Statement::Read { store, key, .. } => self.add_read(app, service, store, key_of(key)),
            // a poll names a cell by its channel and its number, and writes name the channel alone
            Statement::Poll { store, .. } | Statement::Scan { store, .. } => {
                self.add_read(app, service, store, None)
            }
            Statement::Write { store, key, .. } => self.add_write(app, service, store, key_of(key)),
            _ => Ok(()),
        }
    }

    #[tactic(auto, using(anti_app::proofs::Runnable::can_run))]
    fn add_read(
        &mut self,
        app: &App,
        service: u32,
        store: &Name,
        key: Option<Name>,
    ) -> Result<(), NoMemory>
        requires sound { IsTrue (is_sound app.now) }
    {
        self.reads.push(Touch {
            service,
            store: store_number(app, store),
            key,
        })?;
        Ok(())
    }

    #[tactic(auto, using(anti_app::proofs::Runnable::can_run))]
    fn add_write(
        &mut self,
        app: &App,
        service: u32,
        store: &Name,
        key: Option<Name>,
    ) -> Result<(), NoMemory>
        requires sound { IsTrue (is_sound app.now) }
    {
        self.writes.push(Touch {
            service,
            store: store_number(app, store),
            key,
        })?;
        Ok(())
    }

    /// Whether a service of a region may read a key of a store.
    pub(crate) fn is_read(&self, app: &App, store: u32, key: Option<Name>, region: u32) -> bool {
        self.reads.iter().any(|read| {
            read.store == store
                && may_be_same(read.key, key)
                && region_of(app, read.service as usize) == region
        })
    }
}

/// Whether two keys may be the same, of which none may be any.
pub(crate) fn may_be_same(one: Option<Name>, other: Option<Name>) -> bool {
    match (one, other) {
        (Some(one), Some(other)) => one == other,
        _ => true,
    }
}
