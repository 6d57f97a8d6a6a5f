ghost use Rattle.std.specs.Prelude.{◌≡◌, ◌≤◌, IfOk, length, map};
ghost use Rattle.anti_ids.specs.Answers.{AnswersBut};
ghost use Rattle.anti_lang.specs.Parsing.{lines_from};
ghost use Rattle.anti_lang.specs.inner.Parses.{lines_read};
ghost use Rattle.anti_lang.specs.declared.fault.LangFault.TheVariants as faults;

use crate::fault::{LangCode, LangFault};
use crate::line::{Line, read_line};
use anti_ids::{Bytes, List, MOST_LINES};
use std::alloc::Global;

/// What lines of bytes state, or the first line that states nothing.
pub(crate) fn read_lines(alloc: Global, lines: &[Bytes]) -> Result<List<Line>, LangFault>
    requires { length lines.now ≤ MOST_LINES }
    ensures read { AnswersBut faults.NoMemory result (lines_read (lines_from 0 (map (λ line. line.items) lines.now))) }
    ensures count { IfOk result (λ found. length found.items ≡ length lines.now) }
{
    let mut found = List::new(alloc);
    for (i, text) in lines.iter().enumerate() {
        match read_line(alloc, text.bytes())? {
            Some(line) => found.add(line)?,
            None => return Err(LangFault::at(i as u32 + 1, LangCode::Unknown)),
        }
    }
    Ok(found)
}
