ghost use Rattle.std.specs.Prelude.{◌≡◌, ◌≤◌, length, map};
ghost use Rattle.anti_ids.specs.Answers.{AnswersBut};
ghost use Rattle.anti_lang.specs.Stated.{all_stated, ArePlain};
ghost use Rattle.anti_lang.specs.Faults.{block_fault, variable_fault};
ghost use Rattle.anti_lang.specs.Parsing.{body_or, parsed};
ghost use Rattle.anti_lang.specs.Parses.{body_parsed, texts_of};
ghost use Rattle.anti_lang.specs.declared.fault.LangFault.TheVariants as faults;

use crate::block_faults::block_fault;
use crate::blocks::build;
use crate::fault::{LangCode, LangFault};
use crate::line::Line;
use crate::line_reader::read_lines;
use crate::statement::Body;
use crate::variable::variable_fault;
use anti_ids::{Bytes, List, MOST_LINES};
use std::alloc::Global;

/// The lines of a body.
pub type Lines = List<Bytes>;

// The body of lines, or the first line that is wrong: first the blocks must be right, then the variables.
fn body_of(alloc: Global, lines: List<Line>) -> Result<Body, LangFault>
    requires few { length lines.items ≤ MOST_LINES }
    requires made { ArePlain lines.items }
    ensures { let said = all_stated lines.items in AnswersBut faults.NoMemory result (body_parsed (body_or said (block_fault said) (variable_fault said))) }
{
    if let Some(line) = block_fault(alloc, lines.as_slice())? {
        return Err(LangFault::at(line, LangCode::Block));
    }
    if let Some(line) = variable_fault(lines.as_slice()) {
        return Err(LangFault::at(line, LangCode::Variable));
    }
    Ok(build(alloc, lines)?)
}

/// The body that at most `MOST_LINES` lines state, or the first line that is wrong: first each line must be a statement (`Unknown`), then
/// the blocks must be right (`Block`), then the variables (`Variable`).
pub fn parse(alloc: Global, lines: &Lines) -> Result<Body, LangFault>
    requires { length lines.now.items ≤ MOST_LINES }
    ensures { AnswersBut faults.NoMemory result (body_parsed (parsed (texts_of lines.now))) }
{
    let found = read_lines(alloc, lines.as_slice())?;
    body_of(alloc, found)
}
