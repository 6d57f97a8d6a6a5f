ghost use Rattle.std.specs.Prelude.{◌≡◌, ◌≤◌, map, length, not, true, Err, IfOk};
ghost use Rattle.std.specs.Option.{option_map_or};
ghost use Rattle.std.specs.List.{position_from};
ghost use Rattle.toml.specs.View.{view, table_view};
ghost use Rattle.anti_lang.specs.Words.{words};
ghost use Rattle.anti_lang.specs.Lines.{read_line};
ghost use Rattle.anti_lang.specs.Parsing.{parsed};
ghost use Rattle.anti_lang.specs.Parses.{texts_of};
ghost use Rattle.anti_rules.specs.Trees.{text_of};
ghost use Rattle.anti_rules.specs.Keys.{is_text};
ghost use Rattle.anti_rules.specs.Statements.{next, body_in, line_with, fault_line, bad_line, line_passes};
ghost use Rattle.anti_rules.specs.inner.Parses.{line_fits};

use crate::rule::Rule;
use crate::statement::line_fits;
use crate::table::is_text;
use crate::toml_tree::{text_of, things_in};
use anti_ids::{Bytes, List, MOST_LINES, NoMemory};
use anti_lang::{LangCode, LangFault, Lines, parse, read_line};
use std::alloc::Global;
use toml::{Table, Value};

/// The number of the item or line after this one. Numbers end at the greatest `u32`, which no document reaches.
pub fn next(number: u32) -> u32
    ensures { result ≡ next number }
{
    number.saturating_add(1)
}

// The number of the line at an index.
fn line_at(index: usize) -> u32
    ensures { result ≡ next index }
{
    (index as u64).saturating_add(1).min(u32::MAX as u64) as u32
}

/// The lines of a handler's body.
pub fn body_in(value: &Value) -> &[Value]
    ensures { map view result.now ≡ body_in (view value.now) }
{
    things_in(value, "body")
}

// A copy of the bytes of a text.
fn bytes_of(alloc: Global, text: &str) -> Result<Bytes, NoMemory>
    ensures { IfOk result (λ bytes. bytes.items ≡ text.now) }
{
    let mut bytes = Bytes::new(alloc);
    bytes.append(text.as_bytes())?;
    Ok(bytes)
}

/// The texts that some things are, as the lines of a body.
pub fn texts_in(alloc: Global, values: &[Value]) -> Result<Lines, NoMemory>
    ensures { IfOk result (λ lines. texts_of lines ≡ map text_of (map view values.now)) }
{
    let mut lines = List::new(alloc);
    for value in values {
        let bytes = bytes_of(alloc, text_of(value))?;
        lines.add(bytes)?;
    }
    Ok(lines)
}

// The line of a fault, where it has this code.
fn line_if(wanted: LangCode, line: u32, code: LangCode) -> Option<u32>
    ensures { result ≡ line_with (Err (LangFault.Line line code)) wanted }
{
    match code {
        LangCode::Unknown => match wanted {
            LangCode::Unknown => Some(line),
            _ => None,
        },
        LangCode::Block => match wanted {
            LangCode::Block => Some(line),
            _ => None,
        },
        LangCode::Variable => match wanted {
            LangCode::Variable => Some(line),
            _ => None,
        },
    }
}

// The line of the first fault of some lines, where it has this code.
fn line_with(alloc: Global, wanted: LangCode, lines: &Lines) -> Result<Option<u32>, NoMemory>
    requires { length lines.now.items ≤ MOST_LINES }
    ensures { IfOk result (λ line. line ≡ line_with (parsed (texts_of lines.now)) wanted) }
{
    match parse(alloc, lines) {
        Ok(_) => Ok(None),
        Err(LangFault::Line { line, code }) => Ok(line_if(wanted, line, code)),
        Err(LangFault::NoMemory) => Err(NoMemory),
    }
}

/// The line of the first fault of a handler's body, where it has this code. A body of more than `MOST_LINES` lines fails an earlier rule.
pub fn fault_line(alloc: Global, wanted: LangCode, value: &Value) -> Result<Option<u32>, NoMemory>
    ensures { IfOk result (λ line. line ≡ fault_line wanted (view value.now)) }
{
    let body = body_in(value);
    if body.len() <= MOST_LINES {
        let lines = texts_in(alloc, body)?;
        line_with(alloc, wanted, &lines)
    } else {
        Ok(None)
    }
}

// The index of the first of some lines that is no text.
fn first_other(values: &[Value]) -> Option<usize>
    ensures { result ≡ position_from (λ line. not (is_text line)) 0 (map view values.now) }
{
    for (index, value) in values.iter().enumerate() {
        if !is_text(value) {
            return Some(index);
        }
    }
    None
}

/// The number of the first line of a handler's body that is no text.
pub fn other_line(value: &Value) -> Option<u32>
    ensures { result ≡ bad_line is_text (view value.now) }
{
    match first_other(body_in(value)) {
        Some(index) => Some(line_at(index)),
        None => None,
    }
}

// Whether a line passes a rule's test; one that states nothing does.
fn text_fits(
    alloc: Global,
    rule: Rule,
    doc: &Table,
    home: &str,
    text: &str,
) -> Result<bool, NoMemory>
    ensures { IfOk result (λ fits. fits ≡
        option_map_or (line_fits rule (table_view doc.now) home.now)
        (read_line (words text.now)) true) }
{
    match read_line(alloc, text.as_bytes())? {
        Some(line) => Ok(line_fits(rule, doc, home, &line)),
        None => Ok(true),
    }
}

// The index of the first of some lines that fails a rule's test.
fn first_line(
    alloc: Global,
    rule: Rule,
    doc: &Table,
    home: &str,
    values: &[Value],
) -> Result<Option<usize>, NoMemory>
    ensures { IfOk result (λ index. index ≡ position_from (λ line.
        not (line_passes (line_fits rule (table_view doc.now) home.now) line)) 0
        (map view values.now)) }
{
    for (index, value) in values.iter().enumerate() {
        if !text_fits(alloc, rule, doc, home, text_of(value))? {
            return Ok(Some(index));
        }
    }
    Ok(None)
}

/// The number of the first line of a handler's body that fails a rule's test.
pub fn bad_line(
    alloc: Global,
    rule: Rule,
    doc: &Table,
    home: &str,
    value: &Value,
) -> Result<Option<u32>, NoMemory>
    ensures { IfOk result (λ line. line ≡
        bad_line (line_passes (line_fits rule (table_view doc.now) home.now)) (view value.now)) }
{
    match first_line(alloc, rule, doc, home, body_in(value))? {
        Some(index) => Ok(Some(line_at(index))),
        None => Ok(None),
    }
}
