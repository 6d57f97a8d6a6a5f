ghost use Rattle.std.specs.Prelude.{◌≡◌, ◌∷◌, IfOk, map, option_map};
ghost use Rattle.std.specs.Map.{lookup};
ghost use Rattle.std.specs.Option.{option_and_then};
ghost use Rattle.std.specs.Str.{bytes_eq};
ghost use Rattle.anti_lang.specs.Words.{words};
ghost use Rattle.anti_lang.specs.Parses.{line_of};
ghost use Rattle.anti_lang.specs.Lines.{forms, lone_lines, read_line};

use crate::form::{
    append_form, call_form, if_form, poll_form, read_form, remove_form, repeat_form, reply_form,
    scan_form, send_form, transfer_form,
};
use crate::split::words;
use crate::statement::Statement;
use crate::write::write_form;
use anti_ids::{Name, NoMemory};
use std::alloc::Global;

/// What a line of a body states.
#[derive(Drop)]
pub enum Line {
    /// A statement that opens no block.
    Does(Statement),
    /// `repeat N`: opens a block that is run N times, 1 to 16.
    Repeat(u32),
    /// `if X absent`: opens a block that is run where no row of X has a version.
    IfAbsent(Name),
    /// `end`: closes a block.
    End,
}

// The line of a first word and the words behind it.
fn form_of(alloc: Global, first: &[u8], words: &[&[u8]]) -> Result<Option<Line>, NoMemory>
    ensures { IfOk result (λ line. line ≡ option_map line_of
        (option_and_then (λ form. form (map (λ word. word.now) words.now)) (lookup (bytes_eq first.now) forms))) }
{
    if first == b"write".as_slice() {
        write_form(alloc, words)
    } else if first == b"append".as_slice() {
        Ok(append_form(words))
    } else if first == b"remove".as_slice() {
        Ok(remove_form(words))
    } else if first == b"transfer".as_slice() {
        Ok(transfer_form(words))
    } else if first == b"read".as_slice() {
        Ok(read_form(words))
    } else if first == b"scan".as_slice() {
        Ok(scan_form(words))
    } else if first == b"poll".as_slice() {
        Ok(poll_form(words))
    } else if first == b"call".as_slice() {
        call_form(alloc, words)
    } else if first == b"send".as_slice() {
        send_form(alloc, words)
    } else if first == b"reply".as_slice() {
        reply_form(alloc, words)
    } else if first == b"repeat".as_slice() {
        Ok(repeat_form(words))
    } else if first == b"if".as_slice() {
        Ok(if_form(words))
    } else {
        Ok(None)
    }
}

// The line that one word states.
fn lone_line(word: &[u8]) -> Option<Line>
    ensures { result ≡ option_map line_of (lookup (bytes_eq word.now) lone_lines) }
{
    if word == b"barrier".as_slice() {
        Some(Line::Does(Statement::Barrier))
    } else if word == b"dryrun".as_slice() {
        Some(Line::Does(Statement::DryRun))
    } else if word == b"nack".as_slice() {
        Some(Line::Does(Statement::Nack))
    } else if word == b"root".as_slice() {
        Some(Line::Does(Statement::Root))
    } else if word == b"stop".as_slice() {
        Some(Line::Does(Statement::Stop))
    } else if word == b"end".as_slice() {
        Some(Line::End)
    } else {
        None
    }
}

// The line that a first word and the words behind it state.
#[tactic(auto, unfolding(crate::specs::Lines::read_line))]
fn line_behind(alloc: Global, first: &[u8], words: &[&[u8]]) -> Result<Option<Line>, NoMemory>
    ensures { IfOk result (λ line. line ≡ option_map line_of (read_line (first.now ∷ map (λ word. word.now) words.now))) }
{
    if words.is_empty() {
        Ok(lone_line(first))
    } else {
        form_of(alloc, first, words)
    }
}

// The line that words state.
#[tactic(auto, unfolding(crate::specs::Lines::read_line))]
fn line_of(alloc: Global, words: &[&[u8]]) -> Result<Option<Line>, NoMemory>
    ensures { IfOk result (λ line. line ≡ option_map line_of (read_line (map (λ word. word.now) words.now))) }
{
    match words {
        [] => Ok(None),
        [first, rest @ ..] => line_behind(alloc, first, rest),
    }
}

/// What a line states, or `None` where it states nothing.
pub fn read_line(alloc: Global, text: &[u8]) -> Result<Option<Line>, NoMemory>
    ensures { IfOk result (λ line. line ≡ option_map line_of (read_line (words text.now))) }
{
    let words = words(alloc, text)?;
    line_of(alloc, words.as_slice())
}
