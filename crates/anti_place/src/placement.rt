ghost use Rattle.std.specs.Prelude.{◌≡◌, ◌≤◌, ◌^◌, ◌<◌, IsTrue, length};
ghost use Rattle.std.specs.List.{All};
ghost use Rattle.anti_lang.specs.Blocks.{lines_of};
ghost use Rattle.anti_lang.specs.Bodies.{block_of};
ghost use Rattle.anti_app.specs.Running.{CanRun};
ghost use Rattle.anti_app.specs.Sound.{is_sound};
ghost use Rattle.anti_place.specs.Paths.{first_fault};
ghost use Rattle.anti_place.specs.Placements.{handlers_from, is_called, is_named, placement};
ghost use Rattle.anti_place.specs.inner.Told.{IsShort, or_later};

use crate::body::next_fault;
use crate::fault::Fault;
use crate::reason::Reason;
use crate::targets::Target;
use anti_app::{App, HandlerDef};
use anti_lang::Body;

/// Whether barriers, transfers and roots stand where they must.
#[derive(Clone, Copy, PartialEq, Eq)]
pub enum Placement {
    /// They stand where they must.
    Yes,
    /// The first line of the first handler, in the order of the document, at which one does not, and why.
    No {
        /// The number of the service, counted from 0.
        service: u32,
        /// The number of the handler in its service, counted from 0.
        handler: u32,
        /// The line in the body, counted from 1. The end of the body has the line behind its last one.
        line: u32,
        /// Why the line fails.
        reason: Reason,
    },
}

// The first fault of a handler with this body.
fn fault_of_handler(app: &App, target: Target, body: &Body) -> Option<Fault>
    requires runs { CanRun app.now }
    requires short { length (lines_of (block_of body.now)) < 2 ^ 31 }
    ensures { result ≡ first_fault (is_called app.now target.service target.handler)
        (is_named app.now target.service target.handler) (block_of body.now) }
{
    let called = target.is_called(app);
    let named = target.is_named(app, called);
    next_fault(called, named, None, body.as_slice())
}

// Whether the handlers of a service are right, or the first that is not.
fn placed_in(app: &App, service: usize, handlers: &[HandlerDef]) -> Placement
    requires runs { CanRun app.now }
    requires service { service < 2 ^ 32 }
    requires few { length handlers.now < 2 ^ 32 }
    requires short { All IsShort handlers.now }
    ensures { (further : Placement) → handlers_from app.now service 0 handlers.now further ≡ or_later result further }
{
    for (handler, it) in handlers.iter().enumerate() {
        if let Some(fault) = fault_of_handler(app, Target { service, handler }, &it.body) {
            return Placement::No {
                service: service as u32,
                handler: handler as u32,
                line: fault.line,
                reason: fault.reason,
            };
        }
    }
    Placement::Yes
}

/// Whether barriers, transfers and roots stand where they must in an application. It takes no memory.
pub fn placed(app: &App) -> Placement
    requires { IsTrue (is_sound app.now) }
    ensures { result ≡ placement app.now }
{
    for (service, it) in app.services.as_slice().iter().enumerate() {
        match placed_in(app, service, it.handlers.as_slice()) {
            Placement::Yes => {}
            no => return no,
        }
    }
    Placement::Yes
}
