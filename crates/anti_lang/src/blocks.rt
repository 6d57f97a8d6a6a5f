ghost use Rattle.std.specs.Prelude.{◌≡◌, IfOk, OnOk, get_or, reverse, option_map};
ghost use Rattle.anti_ids.specs.List.{plain};
ghost use Rattle.anti_lang.specs.Program.{Step, End, Repeat, IfAbsent};
ghost use Rattle.anti_lang.specs.Bodies.{statement_of, body_of};
ghost use Rattle.anti_lang.specs.Blocks.{behind, wrap, ended, with_line, up};
ghost use Rattle.anti_lang.specs.Stated.{StatedLine, all_stated, ArePlain};
ghost use Rattle.anti_lang.specs.Parses.{line_of};
ghost use Rattle.anti_lang.specs.Turned.{OpenBlocks, Hold, innermost, others};

use crate::line::Line;
use crate::statement::{Body, Statement};
use anti_ids::{List, Name, NoMemory};
use std::alloc::Global;

// The bodies of open blocks, the innermost last. The statements of each stand back to front.
type Bodies = List<Body>;

// The statements of a body, the last one first.
fn turned(alloc: Global, mut body: Body) -> Result<Body, NoMemory>
    ensures { IfOk result (λ again. again ≡ plain (reverse body.items)) }
{
    let mut again = List::new(alloc);
    while let Some(statement) = body.pop() {
        again.add(statement)?;
    }
    Ok(again)
}

// Puts a statement in front of those of the innermost block.
fn put(bodies: &mut Bodies, statement: Statement) -> Result<(), NoMemory>
    ensures { (blocks : OpenBlocks) (said : Step) → Hold bodies.old blocks → statement ≡ statement_of said
        → OnOk result (Hold bodies.new (behind said blocks)) }
{
    match bodies.pop() {
        Some(mut body) => {
            body.add(statement)?;
            bodies.add(body)
        }
        None => Ok(()),
    }
}

// Takes off the innermost block, whose opening line has come, and turns it.
fn innermost(alloc: Global, bodies: &mut Bodies) -> Result<Option<Body>, NoMemory>
    ensures body { (blocks : OpenBlocks) → Hold bodies.old blocks → IfOk result (λ body. body ≡ option_map body_of (innermost blocks)) }
    ensures rest { (blocks : OpenBlocks) → Hold bodies.old blocks → OnOk result (Hold bodies.new (others blocks)) }
{
    match bodies.pop() {
        Some(body) => Ok(Some(turned(alloc, body)?)),
        None => Ok(None),
    }
}

// The innermost block becomes a `repeat` in the block round it.
fn repeat(alloc: Global, bodies: &mut Bodies, count: u32) -> Result<(), NoMemory>
    ensures { (blocks : OpenBlocks) → Hold bodies.old blocks → OnOk result (Hold bodies.new (wrap (Repeat count) blocks)) }
{
    match innermost(alloc, bodies)? {
        Some(body) => put(bodies, Statement::Repeat { count, body }),
        None => Ok(()),
    }
}

// The innermost block becomes an `if` in the block round it.
fn if_absent(alloc: Global, bodies: &mut Bodies, variable: Name) -> Result<(), NoMemory>
    ensures { (blocks : OpenBlocks) → Hold bodies.old blocks → OnOk result (Hold bodies.new (wrap (IfAbsent variable) blocks)) }
{
    match innermost(alloc, bodies)? {
        Some(body) => put(bodies, Statement::IfAbsent { variable, body }),
        None => Ok(()),
    }
}

// A block ends in front of the innermost one.
fn end(alloc: Global, bodies: &mut Bodies) -> Result<(), NoMemory>
    ensures { (blocks : OpenBlocks) → Hold bodies.old blocks → OnOk result (Hold bodies.new (ended blocks)) }
{
    if bodies.is_empty() {
        return Ok(());
    }
    bodies.add(List::new(alloc))
}

// The blocks with a line in front of their lines.
fn with_line(alloc: Global, bodies: &mut Bodies, line: Line) -> Result<(), NoMemory>
    ensures { (blocks : OpenBlocks) (said : StatedLine) → Hold bodies.old blocks → line ≡ line_of said
        → OnOk result (Hold bodies.new (with_line said blocks)) }
{
    match line {
        Line::Does(statement) => put(bodies, statement),
        Line::Repeat(count) => repeat(alloc, bodies, count),
        Line::IfAbsent(variable) => if_absent(alloc, bodies, variable),
        Line::End => end(alloc, bodies),
    }
}

/// The body that lines state, read from the last line up; where they state several blocks, the innermost.
pub(crate) fn build(alloc: Global, mut lines: List<Line>) -> Result<Body, NoMemory>
    requires { ArePlain lines.items }
    ensures { IfOk result (λ body. body ≡ body_of (get_or (up (all_stated lines.items)) 0 End)) }
{
    let mut bodies = List::new(alloc);
    bodies.add(List::new(alloc))?;
    while let Some(line) = lines.pop() {
        with_line(alloc, &mut bodies, line)?;
    }
    match innermost(alloc, &mut bodies)? {
        Some(body) => Ok(body),
        None => Ok(List::new(alloc)),
    }
}
