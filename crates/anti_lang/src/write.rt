// The line of a write, read and written.
ghost use Rattle.std.specs.Prelude.{◌≡◌, ℕ, List, [], ◌∷◌, IfOk, map, option_map};
ghost use Rattle.std.specs.Option.{option_and_then};
ghost use Rattle.anti_lang.specs.Lines.{written, write_form};
ghost use Rattle.anti_lang.specs.Parses.{line_of};
ghost use Rattle.anti_lang.specs.Printing.{statement_words, spaced};
ghost use Rattle.anti_lang.specs.Program.{Write};

use crate::form::variable_behind;
use crate::line::Line;
use crate::name::plain_name;
use crate::split::spaced;
use crate::statement::{KeyWord, Statement, ValueWord};
use crate::word::{key_of, key_text, value_of, value_text};
use anti_ids::{Bytes, Name, NoMemory};
use std::alloc::Global;

// What the words behind the value of a write say of its variable.
#[derive(Clone, Copy)]
struct WriteVariable {
    variable: Option<Name>,
    untracked: bool,
}

// Nothing, or `as VARIABLE`, or `as VARIABLE untracked`.
fn held_of(words: &[&[u8]]) -> Option<WriteVariable>
    ensures { (store key value : List ℕ) → write_form (store ∷ key ∷ value ∷ map (λ word. word.now) words.now)
        ≡ option_and_then (λ held. written store key value held.variable held.untracked) result }
{
    match words {
        [] => Some(WriteVariable {
            variable: None,
            untracked: false,
        }),
        [joint, variable] => held_as(joint, variable),
        [joint, variable, last] => held_untracked(joint, variable, last),
        _ => None,
    }
}

fn held_as(joint: &[u8], variable: &[u8]) -> Option<WriteVariable>
    ensures { (store key value : List ℕ) → write_form (store ∷ key ∷ value ∷ joint.now ∷ variable.now ∷ [])
        ≡ option_and_then (λ held. written store key value held.variable held.untracked) result }
{
    Some(WriteVariable {
        variable: Some(variable_behind(joint, variable)?),
        untracked: false,
    })
}

fn held_untracked(joint: &[u8], variable: &[u8], last: &[u8]) -> Option<WriteVariable>
    ensures { (store key value : List ℕ) → write_form (store ∷ key ∷ value ∷ joint.now ∷ variable.now ∷ last.now ∷ [])
        ≡ option_and_then (λ held. written store key value held.variable held.untracked) result }
{
    if last != b"untracked".as_slice() {
        return None;
    }
    Some(WriteVariable {
        variable: Some(variable_behind(joint, variable)?),
        untracked: true,
    })
}

// `write STORE KEY VALUE`, with nothing, `as VARIABLE`, or `as VARIABLE untracked` behind it.
pub fn write_form(alloc: Global, words: &[&[u8]]) -> Result<Option<Line>, NoMemory>
    ensures { IfOk result (λ line. line ≡ option_map line_of (write_form (map (λ word. word.now) words.now))) }
{
    match words {
        [store, key, value, rest @ ..] => match held_of(rest) {
            Some(held) => write_of(alloc, store, key, value, held),
            None => Ok(None),
        },
        _ => Ok(None),
    }
}

fn write_of(
    alloc: Global,
    store: &[u8],
    key: &[u8],
    value: &[u8],
    held: WriteVariable,
) -> Result<Option<Line>, NoMemory>
    ensures { IfOk result (λ line. line ≡ option_map line_of (written store.now key.now value.now held.variable held.untracked)) }
{
    let Some(store) = plain_name(store) else {
        return Ok(None);
    };
    let Some(key) = key_of(key) else {
        return Ok(None);
    };
    match value_of(alloc, value)? {
        Some(value) => Ok(Some(Line::Does(Statement::Write {
            store,
            key,
            value,
            variable: held.variable,
            untracked: held.untracked,
        }))),
        None => Ok(None),
    }
}

// The words of such a line.
pub fn write_text(
    alloc: Global,
    store: &Name,
    key: &KeyWord,
    value: &ValueWord,
    variable: &Option<Name>,
    untracked: bool,
) -> Result<Bytes, NoMemory>
    ensures { IfOk result (λ text. text.items ≡ spaced (statement_words (Write store.now key.now value.now variable.now untracked))) }
{
    let key = key_text(alloc, key)?;
    let value = value_text(alloc, value)?;
    let (word, store, key, value) = (b"write", store.bytes(), key.bytes(), value.bytes());
    match variable {
        None => spaced(alloc, &[word, store, key, value]),
        Some(name) => {
            if untracked {
                spaced(
                    alloc,
                    &[word, store, key, value, b"as", name.bytes(), b"untracked"],
                )
            } else {
                spaced(alloc, &[word, store, key, value, b"as", name.bytes()])
            }
        }
    }
}
