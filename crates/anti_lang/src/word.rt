// What stands for a variable, a key, a value and a count in a line.
ghost use Rattle.std.specs.Prelude.{◌≡◌, ℕ, List, ◌∷◌, Bool, IfOk, decimal};
ghost use Rattle.std.specs.Bool.{then_some};
ghost use Rattle.std.specs.List.{list_all};
ghost use Rattle.anti_ids.specs.Ascii.{dollar};
ghost use Rattle.anti_ids.specs.Decimals.{decimal_in};
ghost use Rattle.anti_ids.specs.Names.{is_name, is_plain};
ghost use Rattle.anti_ids.specs.declared.limits.TheConstants.{MOST_TURNS};
ghost use Rattle.anti_lang.specs.Texts.{variable_of, is_literal, is_literal_byte};
ghost use Rattle.anti_lang.specs.Printing.{key_text, value_text};
ghost use Rattle.anti_lang.specs.Vocabulary.{key_of, value_of};

use crate::name::{any_name, plain_name};
use crate::statement::{KeyWord, ValueWord};
use anti_ids::{Bytes, MOST_TURNS, Name, NoMemory, Value, ValueFault, read_decimal};
use std::alloc::Global;

/// A word that stands for itself.
pub fn plain_text(alloc: Global, bytes: &[u8]) -> Result<Bytes, NoMemory>
    ensures { IfOk result (λ text. text.items ≡ bytes.now) }
{
    let mut text = Bytes::new(alloc);
    text.append(bytes)?;
    Ok(text)
}

/// The variable that a word is: a plain name other than `in`.
pub fn variable_of(word: &[u8]) -> Option<Name>
    ensures { result ≡ variable_of word.now }
{
    if word == b"in".as_slice() {
        return None;
    }
    plain_name(word)
}

// `$` and the name of a variable.
fn variable_text(alloc: Global, name: &[u8]) -> Result<Bytes, NoMemory>
    ensures { IfOk result (λ text. text.items ≡ dollar ∷ name.now) }
{
    let mut text = Bytes::new(alloc);
    text.append(b"$")?;
    text.append(name)?;
    Ok(text)
}

// What a word of `$` and these bytes is for a key.
fn key_behind(name: &[u8]) -> Option<KeyWord>
    ensures { (is_good : List ℕ → Bool) → result ≡ key_of is_good (dollar ∷ name.now) }
{
    if name == b"in".as_slice() {
        return Some(KeyWord::Input);
    }
    Some(KeyWord::Of(variable_of(name)?))
}

/// What a word is for a key that is a plain name.
pub fn key_of(word: &[u8]) -> Option<KeyWord>
    ensures { result ≡ key_of is_plain word.now }
{
    match word {
        [b'$', name @ ..] => key_behind(name),
        _ => Some(KeyWord::Plain(plain_name(word)?)),
    }
}

/// What a word is for the key of a cell, which may be any name.
pub fn cell_of(word: &[u8]) -> Option<KeyWord>
    ensures { result ≡ key_of is_name word.now }
{
    match word {
        [b'$', name @ ..] => key_behind(name),
        _ => Some(KeyWord::Plain(any_name(word)?)),
    }
}

/// The word of a key.
pub fn key_text(alloc: Global, key: &KeyWord) -> Result<Bytes, NoMemory>
    ensures { IfOk result (λ text. text.items ≡ key_text key.now) }
{
    match key {
        KeyWord::Input => plain_text(alloc, b"$in"),
        KeyWord::Of(variable) => variable_text(alloc, variable.bytes()),
        KeyWord::Plain(name) => plain_text(alloc, name.bytes()),
    }
}

// The literal that a word is.
fn literal_of(alloc: Global, word: &[u8]) -> Result<Option<Value>, NoMemory>
    ensures { IfOk result (λ value. value ≡ then_some (is_literal word.now) word.now) }
{
    if word.is_empty() || !all_literal(word) {
        return Ok(None);
    }
    match Value::new(alloc, word) {
        Ok(value) => Ok(Some(value)),
        Err(ValueFault::TooLong) => Ok(None),
        Err(ValueFault::BadUtf8) => Ok(None),
        Err(ValueFault::NoMemory) => Err(NoMemory),
    }
}

// Whether each byte may stand in a literal: it is no control byte and no space.
fn all_literal(word: &[u8]) -> bool
    ensures { result ≡ list_all is_literal_byte word.now }
{
    for byte in word {
        if *byte <= b' ' || *byte == 127 {
            return false;
        }
    }
    true
}

// What a word of `$` and these bytes is for a value.
fn value_behind(name: &[u8]) -> Option<ValueWord>
    ensures { result ≡ value_of (dollar ∷ name.now) }
{
    if name == b"in".as_slice() {
        return Some(ValueWord::Input);
    }
    Some(ValueWord::Of(variable_of(name)?))
}

/// What a word is for a value.
pub fn value_of(alloc: Global, word: &[u8]) -> Result<Option<ValueWord>, NoMemory>
    ensures { IfOk result (λ value. value ≡ value_of word.now) }
{
    match word {
        [b'$', name @ ..] => Ok(value_behind(name)),
        _ => match literal_of(alloc, word)? {
            Some(value) => Ok(Some(ValueWord::Literal(value))),
            None => Ok(None),
        },
    }
}

/// The word of a value.
pub fn value_text(alloc: Global, value: &ValueWord) -> Result<Bytes, NoMemory>
    ensures { IfOk result (λ text. text.items ≡ value_text value.now) }
{
    match value {
        ValueWord::Input => plain_text(alloc, b"$in"),
        ValueWord::Of(variable) => variable_text(alloc, variable.bytes()),
        ValueWord::Literal(value) => plain_text(alloc, value.bytes()),
    }
}

/// The number of turns that a word is.
pub fn count_of(word: &[u8]) -> Option<u32>
    ensures { result ≡ decimal_in 1 MOST_TURNS word.now }
{
    let count = read_decimal(word, 1, MOST_TURNS as u64)?;
    Some(count as u32)
}

/// The word of a number of turns.
pub fn count_text(alloc: Global, count: u32) -> Result<Bytes, NoMemory>
    ensures { IfOk result (λ text. text.items ≡ decimal count) }
{
    let text = format!(in alloc; "{count}")?;
    plain_text(alloc, text.as_bytes())
}
