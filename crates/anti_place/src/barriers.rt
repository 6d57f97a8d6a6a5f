ghost use Rattle.std.specs.Prelude.{◌≡◌, ◌+◌, ◌^◌, ◌<◌, ◌++◌, length, OnOk};
ghost use Rattle.anti_lang.specs.Blocks.{lines_of, step_lines};
ghost use Rattle.anti_lang.specs.Bodies.{block_from, step_of};
ghost use Rattle.anti_lang.specs.Steps.{steps_of};
ghost use Rattle.anti_place.specs.Paths.{height};
ghost use Rattle.anti_place.specs.inner.Said.{told_at, told_lines};

use crate::body::{height, waits_at};
use crate::remark::{Finding, Remark};
use crate::targets::Target;
use anti_ids::{List, NoMemory};
use anti_lang::Statement;

// Adds the barrier at a line of a handler with this body, which is named or not, where it never has to wait.
fn add_barrier(
    remarks: &mut List<Remark>,
    target: Target,
    named: bool,
    line: u32,
    body: &[Statement],
) -> Result<(), NoMemory>
    requires service { target.service < 2 ^ 32 }
    requires handler { target.handler < 2 ^ 32 }
    requires short { length (lines_of (block_from (steps_of body.now))) < 2 ^ 31 }
    ensures { OnOk result (remarks.new.items ≡ remarks.old.items
        ++ told_at target.service target.handler named (block_from (steps_of body.now)) line) }
{
    if waits_at(named, line, body) {
        return Ok(());
    }
    remarks.add(Remark {
        service: target.service as u32,
        handler: target.handler as u32,
        line,
        finding: Finding::Superfluous,
    })
}

// Adds those of a statement that begins at a line.
#[cycle(barriers)]
fn add_in(
    remarks: &mut List<Remark>,
    target: Target,
    named: bool,
    line: u32,
    statement: &Statement,
    body: &[Statement],
) -> Result<(), NoMemory>
    requires service { target.service < 2 ^ 32 }
    requires handler { target.handler < 2 ^ 32 }
    requires short { length (lines_of (block_from (steps_of body.now))) < 2 ^ 31 }
    requires here { line + height (step_of statement.now) < 2 ^ 32 }
    ensures { OnOk result (remarks.new.items ≡ remarks.old.items
        ++ told_lines target.service target.handler named (block_from (steps_of body.now)) line (step_lines (step_of statement.now))) }
{
    match statement {
        Statement::Repeat { body: block, .. } => add_among(
            remarks,
            target,
            named,
            line + 1,
            block.as_slice(),
            body,
        ),
        Statement::IfAbsent { body: block, .. } => add_among(
            remarks,
            target,
            named,
            line + 1,
            block.as_slice(),
            body,
        ),
        Statement::Barrier => add_barrier(remarks, target, named, line, body),
        _ => Ok(()),
    }
}

// Adds those among some statements, the first of which begins at a line.
#[cycle(barriers)]
fn add_among(
    remarks: &mut List<Remark>,
    target: Target,
    named: bool,
    line: u32,
    statements: &[Statement],
    body: &[Statement],
) -> Result<(), NoMemory>
    requires service { target.service < 2 ^ 32 }
    requires handler { target.handler < 2 ^ 32 }
    requires short { length (lines_of (block_from (steps_of body.now))) < 2 ^ 31 }
    requires here { line + length (lines_of (block_from (steps_of statements.now))) < 2 ^ 32 }
    ensures { OnOk result (remarks.new.items ≡ remarks.old.items
        ++ told_lines target.service target.handler named (block_from (steps_of body.now)) line (lines_of (block_from (steps_of statements.now)))) }
{
    let mut here = line;
    for statement in statements {
        add_in(remarks, target, named, here, statement, body)?;
        here += height(statement);
    }
    Ok(())
}

/// Adds the barriers of a handler with this body, which is named or not, that never have to wait.
pub fn add_barriers(
    remarks: &mut List<Remark>,
    target: Target,
    named: bool,
    body: &[Statement],
) -> Result<(), NoMemory>
    requires service { target.service < 2 ^ 32 }
    requires handler { target.handler < 2 ^ 32 }
    requires short { length (lines_of (block_from (steps_of body.now))) < 2 ^ 31 }
    ensures { OnOk result (remarks.new.items ≡ remarks.old.items
        ++ told_lines target.service target.handler named (block_from (steps_of body.now)) 1 (lines_of (block_from (steps_of body.now)))) }
{
    add_among(remarks, target, named, 1, body, body)
}
