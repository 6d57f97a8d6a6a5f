ghost use Rattle.std.specs.Prelude.{◌≡◌, ◌^◌, ◌<◌, ◌++◌, IsTrue, length, IfOk, OnOk};
ghost use Rattle.std.specs.List.{All};
ghost use Rattle.anti_lang.specs.Blocks.{lines_of};
ghost use Rattle.anti_lang.specs.Bodies.{block_of};
ghost use Rattle.anti_app.specs.Running.{CanRun};
ghost use Rattle.anti_app.specs.Sound.{is_sound};
ghost use Rattle.anti_place.specs.Reviews.{handlers_say, review, services_say};
ghost use Rattle.anti_place.specs.inner.Said.{said};
ghost use Rattle.anti_place.specs.inner.Told.{IsShort};

use crate::barriers::add_barriers;
use crate::faults::add_faults;
use crate::remark::Remark;
use crate::targets::Target;
use anti_app::{App, HandlerDef};
use anti_ids::{List, NoMemory};
use anti_lang::Body;
use std::alloc::Global;

/// What remarks are about.
#[derive(Clone, Copy)]
pub enum Subject {
    /// Lines that fail.
    Faults,
    /// Barriers that never have to wait.
    Barriers,
}

// Adds what is said of a handler with this body.
fn add_of_handler(
    remarks: &mut List<Remark>,
    subject: Subject,
    app: &App,
    target: Target,
    body: &Body,
) -> Result<(), NoMemory>
    requires runs { CanRun app.now }
    requires service { target.service < 2 ^ 32 }
    requires handler { target.handler < 2 ^ 32 }
    requires short { length (lines_of (block_of body.now)) < 2 ^ 31 }
    ensures { OnOk result (remarks.new.items ≡ remarks.old.items
        ++ said subject app.now target.service target.handler (block_of body.now)) }
{
    let called = target.is_called(app);
    let named = target.is_named(app, called);
    match subject {
        Subject::Faults => add_faults(remarks, target, called, named, body.as_slice()),
        Subject::Barriers => add_barriers(remarks, target, named, body.as_slice()),
    }
}

// Adds what is said of the handlers of a service.
fn add_of_service(
    remarks: &mut List<Remark>,
    subject: Subject,
    app: &App,
    service: usize,
    handlers: &[HandlerDef],
) -> Result<(), NoMemory>
    requires runs { CanRun app.now }
    requires service { service < 2 ^ 32 }
    requires few { length handlers.now < 2 ^ 32 }
    requires short { All IsShort handlers.now }
    ensures { OnOk result (remarks.new.items ≡ remarks.old.items
        ++ handlers_say (said subject app.now) service 0 handlers.now) }
{
    for (handler, it) in handlers.iter().enumerate() {
        add_of_handler(remarks, subject, app, Target { service, handler }, &it.body)?;
    }
    Ok(())
}

// Adds what is said of all handlers.
fn add_of_all(remarks: &mut List<Remark>, subject: Subject, app: &App) -> Result<(), NoMemory>
    requires { IsTrue (is_sound app.now) }
    ensures { OnOk result (remarks.new.items ≡ remarks.old.items
        ++ services_say (said subject app.now) 0 app.now.services.items) }
{
    for (service, it) in app.services.as_slice().iter().enumerate() {
        add_of_service(remarks, subject, app, service, it.handlers.as_slice())?;
    }
    Ok(())
}

/// All lines of an application at which something is missing, each with its reason, in the order of services and handlers, and behind
/// them all barriers that never have to wait.
pub fn review(alloc: Global, app: &App) -> Result<List<Remark>, NoMemory>
    requires { IsTrue (is_sound app.now) }
    ensures { IfOk result (λ remarks. remarks.items ≡ review app.now) }
{
    let mut remarks = List::new(alloc);
    add_of_all(&mut remarks, Subject::Faults, app)?;
    add_of_all(&mut remarks, Subject::Barriers, app)?;
    Ok(remarks)
}
