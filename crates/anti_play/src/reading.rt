use anti_app::{App, HandlerDef};
use anti_lang::Statement;

// Whether a statement reads from a store, or one of its block does.
#[cycle(reading)]
fn reads(statement: &Statement) -> bool {
    match statement {
        Statement::Read { .. } | Statement::Scan { .. } | Statement::Poll { .. } => true,
        Statement::Repeat { body, .. } | Statement::IfAbsent { body, .. } => some_reads(
            body.as_slice(),
        ),
        _ => false,
    }
}

// Whether some statement reads.
#[cycle(reading)]
fn some_reads(statements: &[Statement]) -> bool {
    for statement in statements {
        if reads(statement) {
            return true;
        }
    }
    false
}

// Whether the body of some handler reads.
fn some_handler_reads(handlers: &[HandlerDef]) -> bool {
    handlers
        .iter()
        .any(|handler| some_reads(handler.body.as_slice()))
}

/// Whether the body of some handler of an application reads.
pub fn has_reads(app: &App) -> bool {
    app.services
        .as_slice()
        .iter()
        .any(|service| some_handler_reads(service.handlers.as_slice()))
}
