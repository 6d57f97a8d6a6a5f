ghost use Rattle.std.specs.Prelude.{◌≡◌};
ghost use Rattle.std.specs.List.{list_any};
ghost use Rattle.anti_lang.specs.Blocks.{lines_of, step_lines};
ghost use Rattle.anti_lang.specs.Bodies.{block_from, step_of};
ghost use Rattle.anti_lang.specs.Lines.{Does};
ghost use Rattle.anti_lang.specs.Steps.{steps_of};
ghost use Rattle.anti_app.specs.Running.{CanRun};
ghost use Rattle.anti_place.specs.Placements.{calls_it, is_called, is_handler, is_named, sends_it, some_line};
ghost use Rattle.anti_place.specs.inner.Posted.{is_started, posts_it, some_of};

use anti_app::{App, HandlerDef, handler_number, inbox_of, service_at};
use anti_ids::Name;
use anti_lang::Statement;

/// A handler, by its numbers.
#[derive(Clone, Copy)]
pub struct Target {
    /// The number of its service.
    pub service: usize,
    /// Its number among the handlers of the service.
    pub handler: usize,
}

/// How a line posts to a handler.
#[derive(Clone, Copy)]
pub enum Posting {
    /// By a `call`, which waits for the reply.
    Calls,
    /// By a `send`, which waits for nothing.
    Sends,
}

// Whether a service and a handler that are named are these. The service is found as a message finds it, by its inbox.
fn is_handler(app: &App, target: Target, service: &Name, name: &Name) -> bool
    requires { CanRun app.now }
    ensures { result ≡ is_handler app.now target.service target.handler service.now name.now }
{
    service_at(app, inbox_of(app, service)) == target.service
        && handler_number(app, target.service, name) == target.handler
}

// Whether a statement calls a handler.
fn calls(app: &App, target: Target, statement: &Statement) -> bool
    requires { CanRun app.now }
    ensures { result ≡ calls_it app.now target.service target.handler (Does (step_of statement.now)) }
{
    match statement {
        Statement::Call {
            service,
            handler,
            ..
        } => is_handler(app, target, service, handler),
        _ => false,
    }
}

// Whether a statement sends to a handler.
fn sends(app: &App, target: Target, statement: &Statement) -> bool
    requires { CanRun app.now }
    ensures { result ≡ sends_it app.now target.service target.handler (Does (step_of statement.now)) }
{
    match statement {
        Statement::Send {
            service,
            handler,
            ..
        } => is_handler(app, target, service, handler),
        _ => false,
    }
}

// Whether a statement without a block posts to a handler.
fn posts(app: &App, target: Target, posting: Posting, statement: &Statement) -> bool
    requires { CanRun app.now }
    ensures { result ≡
        posts_it posting app.now target.service target.handler (Does (step_of statement.now)) }
{
    match posting {
        Posting::Calls => calls(app, target, statement),
        Posting::Sends => sends(app, target, statement),
    }
}

// Whether some line of a statement posts to a handler.
#[cycle(posts)]
fn posts_in(app: &App, target: Target, posting: Posting, statement: &Statement) -> bool
    requires { CanRun app.now }
    ensures { result ≡ list_any (posts_it posting app.now target.service target.handler)
        (step_lines (step_of statement.now)) }
{
    match statement {
        Statement::Repeat { body, .. } => some_posts(app, target, posting, body.as_slice()),
        Statement::IfAbsent { body, .. } => some_posts(app, target, posting, body.as_slice()),
        _ => posts(app, target, posting, statement),
    }
}

// Whether some line of some statements posts to a handler.
#[cycle(posts)]
fn some_posts(app: &App, target: Target, posting: Posting, statements: &[Statement]) -> bool
    requires { CanRun app.now }
    ensures { result ≡ list_any (posts_it posting app.now target.service target.handler)
        (lines_of (block_from (steps_of statements.now))) }
{
    for statement in statements {
        if posts_in(app, target, posting, statement) {
            return true;
        }
    }
    false
}

// Whether some line of some handlers posts to a handler.
fn some_handler_posts(app: &App, target: Target, posting: Posting, handlers: &[HandlerDef]) -> bool
    requires { CanRun app.now }
    ensures { result ≡ some_of (posts_it posting app.now target.service target.handler) handlers.now }
{
    for handler in handlers {
        if some_posts(app, target, posting, handler.body.as_slice()) {
            return true;
        }
    }
    false
}

// Whether some line of the application posts to a handler.
fn is_posted(app: &App, target: Target, posting: Posting) -> bool
    requires { CanRun app.now }
    ensures { result ≡ some_line (posts_it posting app.now target.service target.handler) app.now }
{
    for service in app.services.as_slice() {
        if some_handler_posts(app, target, posting, service.handlers.as_slice()) {
            return true;
        }
    }
    false
}

// Whether a subscription starts a handler.
fn is_started(app: &App, target: Target) -> bool
    ensures { result ≡ is_started app.now target.service target.handler }
{
    app.subs.as_slice().iter().any(|sub| sub.service as usize == target.service
        && sub.handler as usize == target.handler)
}

impl Target {
    /// Whether some line calls it.
    pub fn is_called(self, app: &App) -> bool
        requires { CanRun app.now }
        ensures { result ≡ is_called app.now self.service self.handler }
    {
        is_posted(app, self, Posting::Calls)
    }

    /// Whether a call, a send or a subscription names it, where it is known whether it is called.
    pub fn is_named(self, app: &App, called: bool) -> bool
        requires runs { CanRun app.now }
        requires called { called ≡ is_called app.now self.service self.handler }
        ensures { result ≡ is_named app.now self.service self.handler }
    {
        called || is_posted(app, self, Posting::Sends) || is_started(app, self)
    }
}
