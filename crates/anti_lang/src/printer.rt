ghost use Rattle.std.specs.Prelude.{◌≡◌, [], ◌++◌, ◌∷◌, map, false, IfOk, OnOk, codes};
ghost use Rattle.anti_lang.specs.Program.{Block};
ghost use Rattle.anti_lang.specs.Bodies.{block_from, block_of, body_of, step_of};
ghost use Rattle.anti_lang.specs.Printing.{statement_words, LineTexts, printed, spaced};
ghost use Rattle.anti_lang.specs.Parsing.{parsed};
ghost use Rattle.anti_lang.specs.Parses.{texts_of};
ghost use Rattle.anti_lang.specs.inner.Named.{names_object};

use crate::form::{
    call_text, if_text, pair_text, read_text, repeat_text, reply_text, scan_text, send_text,
};
use crate::parser::Lines;
use crate::statement::{Body, Statement};
use crate::word::plain_text;
use crate::write::write_text;
use anti_ids::{Bytes, List, NoMemory};
use std::alloc::Global;

// The words of a statement that names no store and no service; of one with a block those of the line that opens it.
fn short_text(alloc: Global, statement: &Statement) -> Result<Bytes, NoMemory>
    requires { names_object (step_of statement.now) ≡ false }
    ensures { IfOk result (λ text. text.items ≡ spaced (statement_words (step_of statement.now))) }
{
    match statement {
        Statement::Append(variable) => pair_text(alloc, b"append", variable.bytes()),
        Statement::Remove(variable) => pair_text(alloc, b"remove", variable.bytes()),
        Statement::Transfer(variable) => pair_text(alloc, b"transfer", variable.bytes()),
        Statement::Barrier => plain_text(alloc, b"barrier"),
        Statement::DryRun => plain_text(alloc, b"dryrun"),
        Statement::Reply(value) => reply_text(alloc, value),
        Statement::Nack => plain_text(alloc, b"nack"),
        Statement::Root => plain_text(alloc, b"root"),
        Statement::Stop => plain_text(alloc, b"stop"),
        Statement::Repeat { count, .. } => repeat_text(alloc, *count),
        Statement::IfAbsent { variable, .. } => if_text(alloc, variable),
        // each other statement names a store or a service
        _ => unreachable!(),
    }
}

// The words of a statement; of one with a block those of the line that opens it.
fn statement_text(alloc: Global, statement: &Statement) -> Result<Bytes, NoMemory>
    ensures { IfOk result (λ text. text.items ≡ spaced (statement_words (step_of statement.now))) }
{
    match statement {
        Statement::Write {
            store,
            key,
            value,
            variable,
            untracked,
        } => write_text(alloc, store, key, value, variable, *untracked),
        Statement::Read {
            store,
            key,
            variable,
        } => read_text(alloc, b"read", store, key, variable),
        Statement::Scan {
            store,
            prefix,
            variable,
        } => scan_text(alloc, store, prefix, variable),
        Statement::Poll {
            store,
            key,
            variable,
        } => read_text(alloc, b"poll", store, key, variable),
        Statement::Call {
            service,
            handler,
            value,
            variable,
        } => call_text(alloc, service, handler, value, variable),
        Statement::Send {
            service,
            handler,
            value,
        } => send_text(alloc, service, handler, value),
        _ => short_text(alloc, statement),
    }
}

// Adds a text as a line.
fn add_line(lines: &mut Lines, text: Bytes) -> Result<(), NoMemory>
    ensures { OnOk result (texts_of lines.new ≡ texts_of lines.old ++ text.items ∷ []) }
{
    lines.add(text)
}

// Adds the line of a statement; of one with a block the line that opens it.
fn add_statement(alloc: Global, lines: &mut Lines, statement: &Statement) -> Result<(), NoMemory>
    ensures { OnOk result (texts_of lines.new ≡ texts_of lines.old ++ spaced (statement_words (step_of statement.now)) ∷ []) }
{
    let text = statement_text(alloc, statement)?;
    add_line(lines, text)
}

// Adds the line that ends a block.
fn add_end(alloc: Global, lines: &mut Lines) -> Result<(), NoMemory>
    ensures { OnOk result (texts_of lines.new ≡ texts_of lines.old ++ codes "end" ∷ []) }
{
    let text = plain_text(alloc, b"end")?;
    add_line(lines, text)
}

// Adds the lines of statements, with their blocks.
fn add_lines(alloc: Global, lines: &mut Lines, statements: &[Statement]) -> Result<(), NoMemory>
    ensures { OnOk result (texts_of lines.new ≡ texts_of lines.old ++ printed (block_from (map step_of statements.now))) }
{
    for statement in statements {
        add_statement(alloc, lines, statement)?;
        match statement {
            Statement::Repeat { body, .. } => {
                add_lines(alloc, lines, body.as_slice())?;
                add_end(alloc, lines)?;
            }
            Statement::IfAbsent { body, .. } => {
                add_lines(alloc, lines, body.as_slice())?;
                add_end(alloc, lines)?;
            }
            _ => {}
        }
    }
    Ok(())
}

/// The lines of a body: one statement a line, its words with one space between. The lines of a body that lines state, state it too.
pub fn print(alloc: Global, body: &Body) -> Result<Lines, NoMemory>
    ensures lines { IfOk result (λ lines. texts_of lines ≡ printed (block_of body.now)) }
    ensures again { (texts : LineTexts) (block : Block) → parsed texts ≡ Ok block → body.now ≡ body_of block
        → IfOk result (λ lines. parsed (texts_of lines) ≡ Ok block) }
{
    let mut lines = List::new(alloc);
    add_lines(alloc, &mut lines, body.as_slice())?;
    Ok(lines)
}
