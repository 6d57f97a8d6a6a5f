// The forms of lines: each is read by the words behind its first word, and written.
ghost use Rattle.std.specs.Prelude.{◌≡◌, [], ◌∷◌, IfOk, map, option_map, codes, decimal};
ghost use Rattle.std.specs.Bool.{then_some};
ghost use Rattle.anti_ids.specs.Decimals.{decimal_in};
ghost use Rattle.anti_ids.specs.Names.{is_name, is_plain};
ghost use Rattle.anti_ids.specs.declared.limits.TheConstants.{MOST_TURNS};
ghost use Rattle.anti_lang.specs.Program.{Append, Remove, Transfer, Read, Scan, Poll, Call, Send, Reply};
ghost use Rattle.anti_lang.specs.Printing.{key_text, value_text, statement_words, spaced};
ghost use Rattle.anti_lang.specs.Texts.{plain_name, variable_of};
ghost use Rattle.anti_lang.specs.Vocabulary.{key_of, value_of};
ghost use Rattle.anti_lang.specs.Lines.{Does, OpenRepeat, are_as, rows_form, call_form, send_form, if_form, one_word};
ghost use Rattle.anti_lang.specs.Parses.{line_of};

use crate::line::Line;
use crate::name::plain_name;
use crate::split::spaced;
use crate::statement::{KeyWord, Statement, ValueWord};
use crate::word::{
    cell_of, count_of, count_text, key_of, key_text, value_of, value_text, variable_of,
};
use anti_ids::{Bytes, Name, NoMemory};
use std::alloc::Global;

// The variable behind `as`.
pub fn variable_behind(joint: &[u8], variable: &[u8]) -> Option<Name>
    ensures { result ≡ then_some (are_as joint.now variable.now) variable.now }
{
    if joint != b"as".as_slice() {
        return None;
    }
    variable_of(variable)
}

// `read STORE KEY as VARIABLE`.
pub fn read_form(words: &[&[u8]]) -> Option<Line>
    ensures { result ≡ option_map line_of (rows_form Read (key_of is_plain) (map (λ word. word.now) words.now)) }
{
    match words {
        [store, key, joint, variable] => read_of(store, key, joint, variable),
        _ => None,
    }
}

fn read_of(store: &[u8], key: &[u8], joint: &[u8], variable: &[u8]) -> Option<Line>
    ensures { result ≡ option_map line_of (rows_form Read (key_of is_plain) (store.now ∷ key.now ∷ joint.now ∷ variable.now ∷ [])) }
{
    Some(Line::Does(Statement::Read {
        store: plain_name(store)?,
        key: key_of(key)?,
        variable: variable_behind(joint, variable)?,
    }))
}

// The words of a `read` or of a `poll`, whichever the first word is.
pub fn read_text<'a>(
    alloc: Global,
    word: &'a [u8],
    store: &'a Name,
    key: &'a KeyWord,
    variable: &'a Name,
) -> Result<Bytes, NoMemory>
    ensures { IfOk result (λ text. text.items ≡ spaced (word.now ∷ store.now ∷ key_text key.now ∷ codes "as" ∷ variable.now ∷ [])) }
{
    let key = key_text(alloc, key)?;
    spaced(
        alloc,
        &[word, store.bytes(), key.bytes(), b"as", variable.bytes()],
    )
}

// `scan STORE PREFIX as VARIABLE`.
pub fn scan_form(words: &[&[u8]]) -> Option<Line>
    ensures { result ≡ option_map line_of (rows_form Scan plain_name (map (λ word. word.now) words.now)) }
{
    match words {
        [store, prefix, joint, variable] => scan_of(store, prefix, joint, variable),
        _ => None,
    }
}

fn scan_of(store: &[u8], prefix: &[u8], joint: &[u8], variable: &[u8]) -> Option<Line>
    ensures { result ≡ option_map line_of (rows_form Scan plain_name (store.now ∷ prefix.now ∷ joint.now ∷ variable.now ∷ [])) }
{
    Some(Line::Does(Statement::Scan {
        store: plain_name(store)?,
        prefix: plain_name(prefix)?,
        variable: variable_behind(joint, variable)?,
    }))
}

pub fn scan_text(
    alloc: Global,
    store: &Name,
    prefix: &Name,
    variable: &Name,
) -> Result<Bytes, NoMemory>
    ensures { IfOk result (λ text. text.items ≡ spaced (statement_words (Scan store.now prefix.now variable.now))) }
{
    let (store, prefix) = (store.bytes(), prefix.bytes());
    spaced(alloc, &[b"scan", store, prefix, b"as", variable.bytes()])
}

// `poll STORE KEY as VARIABLE`.
pub fn poll_form(words: &[&[u8]]) -> Option<Line>
    ensures { result ≡ option_map line_of (rows_form Poll (key_of is_name) (map (λ word. word.now) words.now)) }
{
    match words {
        [store, key, joint, variable] => poll_of(store, key, joint, variable),
        _ => None,
    }
}

fn poll_of(store: &[u8], key: &[u8], joint: &[u8], variable: &[u8]) -> Option<Line>
    ensures { result ≡ option_map line_of (rows_form Poll (key_of is_name) (store.now ∷ key.now ∷ joint.now ∷ variable.now ∷ [])) }
{
    Some(Line::Does(Statement::Poll {
        store: plain_name(store)?,
        key: cell_of(key)?,
        variable: variable_behind(joint, variable)?,
    }))
}

// `call SERVICE HANDLER VALUE as VARIABLE`.
pub fn call_form(alloc: Global, words: &[&[u8]]) -> Result<Option<Line>, NoMemory>
    ensures { IfOk result (λ line. line ≡ option_map line_of (call_form (map (λ word. word.now) words.now))) }
{
    match words {
        [service, handler, value, joint, variable] => {
            call_of(alloc, service, handler, value, joint, variable)
        }
        _ => Ok(None),
    }
}

fn call_of(
    alloc: Global,
    service: &[u8],
    handler: &[u8],
    value: &[u8],
    joint: &[u8],
    variable: &[u8],
) -> Result<Option<Line>, NoMemory>
    ensures { IfOk result (λ line. line ≡ option_map line_of (call_form (service.now ∷ handler.now ∷ value.now ∷ joint.now ∷ variable.now ∷ []))) }
{
    let Some(service) = plain_name(service) else {
        return Ok(None);
    };
    let Some(handler) = plain_name(handler) else {
        return Ok(None);
    };
    let Some(variable) = variable_behind(joint, variable) else {
        return Ok(None);
    };
    match value_of(alloc, value)? {
        Some(value) => Ok(Some(Line::Does(Statement::Call {
            service,
            handler,
            value,
            variable,
        }))),
        None => Ok(None),
    }
}

pub fn call_text<'a>(
    alloc: Global,
    service: &'a Name,
    handler: &'a Name,
    value: &'a ValueWord,
    variable: &'a Name,
) -> Result<Bytes, NoMemory>
    ensures { IfOk result (λ text. text.items ≡ spaced (statement_words (Call service.now handler.now value.now variable.now))) }
{
    let value = value_text(alloc, value)?;
    let (service, handler) = (service.bytes(), handler.bytes());
    spaced(
        alloc,
        &[
            b"call",
            service,
            handler,
            value.bytes(),
            b"as",
            variable.bytes(),
        ],
    )
}

// `send SERVICE HANDLER VALUE`.
pub fn send_form(alloc: Global, words: &[&[u8]]) -> Result<Option<Line>, NoMemory>
    ensures { IfOk result (λ line. line ≡ option_map line_of (send_form (map (λ word. word.now) words.now))) }
{
    match words {
        [service, handler, value] => send_of(alloc, service, handler, value),
        _ => Ok(None),
    }
}

fn send_of(
    alloc: Global,
    service: &[u8],
    handler: &[u8],
    value: &[u8],
) -> Result<Option<Line>, NoMemory>
    ensures { IfOk result (λ line. line ≡ option_map line_of (send_form (service.now ∷ handler.now ∷ value.now ∷ []))) }
{
    let Some(service) = plain_name(service) else {
        return Ok(None);
    };
    let Some(handler) = plain_name(handler) else {
        return Ok(None);
    };
    match value_of(alloc, value)? {
        Some(value) => Ok(Some(Line::Does(Statement::Send {
            service,
            handler,
            value,
        }))),
        None => Ok(None),
    }
}

pub fn send_text(
    alloc: Global,
    service: &Name,
    handler: &Name,
    value: &ValueWord,
) -> Result<Bytes, NoMemory>
    ensures { IfOk result (λ text. text.items ≡ spaced (statement_words (Send service.now handler.now value.now))) }
{
    let value = value_text(alloc, value)?;
    spaced(
        alloc,
        &[b"send", service.bytes(), handler.bytes(), value.bytes()],
    )
}

// `reply VALUE`.
pub fn reply_form(alloc: Global, words: &[&[u8]]) -> Result<Option<Line>, NoMemory>
    ensures { IfOk result (λ line. line ≡ option_map line_of (one_word (λ v. Does (Reply v)) value_of (map (λ word. word.now) words.now))) }
{
    match words {
        [value] => reply_of(alloc, value),
        _ => Ok(None),
    }
}

fn reply_of(alloc: Global, value: &[u8]) -> Result<Option<Line>, NoMemory>
    ensures { IfOk result (λ line. line ≡ option_map line_of (option_map (λ v. Does (Reply v)) (value_of value.now))) }
{
    match value_of(alloc, value)? {
        Some(value) => Ok(Some(Line::Does(Statement::Reply(value)))),
        None => Ok(None),
    }
}

pub fn reply_text(alloc: Global, value: &ValueWord) -> Result<Bytes, NoMemory>
    ensures { IfOk result (λ text. text.items ≡ spaced (codes "reply" ∷ value_text value.now ∷ [])) }
{
    let value = value_text(alloc, value)?;
    pair_text(alloc, b"reply", value.bytes())
}

// A first word, and the one word behind it.
pub fn pair_text<'a>(alloc: Global, first: &'a [u8], word: &'a [u8]) -> Result<Bytes, NoMemory>
    ensures { IfOk result (λ text. text.items ≡ spaced (first.now ∷ word.now ∷ [])) }
{
    spaced(alloc, &[first, word])
}

// `append VARIABLE`.
pub fn append_form(words: &[&[u8]]) -> Option<Line>
    ensures { result ≡ option_map line_of (one_word (λ x. Does (Append x)) variable_of (map (λ word. word.now) words.now)) }
{
    match words {
        [variable] => append_of(variable),
        _ => None,
    }
}

fn append_of(variable: &[u8]) -> Option<Line>
    ensures { result ≡ option_map line_of (option_map (λ x. Does (Append x)) (variable_of variable.now)) }
{
    Some(Line::Does(Statement::Append(variable_of(variable)?)))
}

// `remove VARIABLE`.
pub fn remove_form(words: &[&[u8]]) -> Option<Line>
    ensures { result ≡ option_map line_of (one_word (λ x. Does (Remove x)) variable_of (map (λ word. word.now) words.now)) }
{
    match words {
        [variable] => remove_of(variable),
        _ => None,
    }
}

fn remove_of(variable: &[u8]) -> Option<Line>
    ensures { result ≡ option_map line_of (option_map (λ x. Does (Remove x)) (variable_of variable.now)) }
{
    Some(Line::Does(Statement::Remove(variable_of(variable)?)))
}

// `transfer VARIABLE`.
pub fn transfer_form(words: &[&[u8]]) -> Option<Line>
    ensures { result ≡ option_map line_of (one_word (λ x. Does (Transfer x)) variable_of (map (λ word. word.now) words.now)) }
{
    match words {
        [variable] => transfer_of(variable),
        _ => None,
    }
}

fn transfer_of(variable: &[u8]) -> Option<Line>
    ensures { result ≡ option_map line_of (option_map (λ x. Does (Transfer x)) (variable_of variable.now)) }
{
    Some(Line::Does(Statement::Transfer(variable_of(variable)?)))
}

// `repeat COUNT`.
pub fn repeat_form(words: &[&[u8]]) -> Option<Line>
    ensures { result ≡ option_map line_of (one_word OpenRepeat (decimal_in 1 MOST_TURNS) (map (λ word. word.now) words.now)) }
{
    match words {
        [count] => Some(Line::Repeat(count_of(count)?)),
        _ => None,
    }
}

pub fn repeat_text(alloc: Global, count: u32) -> Result<Bytes, NoMemory>
    ensures { IfOk result (λ text. text.items ≡ spaced (codes "repeat" ∷ decimal count ∷ [])) }
{
    let count = count_text(alloc, count)?;
    pair_text(alloc, b"repeat", count.bytes())
}

// `if VARIABLE absent`.
pub fn if_form(words: &[&[u8]]) -> Option<Line>
    ensures { result ≡ option_map line_of (if_form (map (λ word. word.now) words.now)) }
{
    match words {
        [variable, last] => if_of(variable, last),
        _ => None,
    }
}

fn if_of(variable: &[u8], last: &[u8]) -> Option<Line>
    ensures { result ≡ option_map line_of (if_form (variable.now ∷ last.now ∷ [])) }
{
    if last != b"absent".as_slice() {
        return None;
    }
    Some(Line::IfAbsent(variable_of(variable)?))
}

pub fn if_text(alloc: Global, variable: &Name) -> Result<Bytes, NoMemory>
    ensures { IfOk result (λ text. text.items ≡ spaced (codes "if" ∷ variable.now ∷ codes "absent" ∷ [])) }
{
    spaced(alloc, &[b"if", variable.bytes(), b"absent"])
}
