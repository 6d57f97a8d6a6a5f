ghost use Rattle.std.specs.Prelude.{◌≡◌, IfOk, Some};
ghost use Rattle.std.specs.Fmt.{decimal};
ghost use Rattle.anti_lang.specs.Texts.{plain_name};
ghost use Rattle.anti_proc.specs.Local.{any_name, held_in, held_text, key_text, text_of};
ghost use Rattle.anti_proc.specs.inner.Standing.{local_in, setting_in};

use crate::variables::Binding;
use crate::way::Way;
use anti_ids::{Copies, Name, NoMemory, Value, ValueFault};
use anti_lang::{KeyWord, ValueWord, plain_name};
use std::alloc::Global;

#[tactic(auto, using(crate::proofs::Decimals::decimal_is_value))]
fn decimal(alloc: Global, number: u64) -> Result<Value, NoMemory>
    ensures { IfOk result (λ v. v ≡ decimal number) }
{
    let text = format!(in alloc; "{number}")?;
    match Value::new(alloc, text.as_bytes()) {
        Ok(value) => Ok(value),
        Err(ValueFault::NoMemory) => Err(NoMemory),
        // decimal_is_value: a number has at most 20 digits, and they are text
        Err(_) => unreachable!(),
    }
}

// What `$X` stands for, by what X holds.
fn held_text(alloc: Global, held: &Binding) -> Result<Value, NoMemory>
    ensures { IfOk result (λ v. v ≡ held_text (Some held.now)) }
{
    match held {
        Binding::Wrote { id, .. } => decimal(alloc, id.version),
        Binding::Saw { rows, .. } => match rows.as_slice().first() {
            Some(row) => row.value.copy(alloc),
            None => Ok(Value::empty(alloc)),
        },
        Binding::Heard(value) => value.copy(alloc),
    }
}

// The name that a text is, where it is one.
fn any_name(text: &[u8]) -> Option<Name>
    ensures { result ≡ any_name text.now }
{
    match Name::new(text) {
        Ok(name) => Some(name),
        Err(_) => None,
    }
}

impl<'a> Way<'a> {
    // What `$X` stands for.
    fn text_of_variable(&self, name: &Name) -> Result<Value, NoMemory>
        ensures { IfOk result (λ v. v
            ≡ held_text (held_in (local_in self.now).variables name.now)) }
    {
        match self.held(name) {
            Some(held) => held_text(self.given.alloc, held),
            None => Ok(Value::empty(self.given.alloc)),
        }
    }

    /// The text of the word of a value, by what the process was given and its variables.
    pub fn text_of(&self, word: &ValueWord) -> Result<Value, NoMemory>
        ensures { IfOk result (λ v. v
            ≡ text_of (setting_in self.now) (local_in self.now) word.now) }
    {
        match word {
            ValueWord::Input => self.given.input.copy(self.given.alloc),
            ValueWord::Of(name) => self.text_of_variable(name),
            ValueWord::Literal(value) => value.copy(self.given.alloc),
        }
    }

    /// The key of a word, where it is a plain name.
    pub fn plain_key(&self, word: &KeyWord) -> Result<Option<Name>, NoMemory>
        ensures { IfOk result (λ key. key
            ≡ plain_name (key_text (setting_in self.now) (local_in self.now) word.now)) }
    {
        match word {
            KeyWord::Input => Ok(plain_name(self.given.input.bytes())),
            KeyWord::Of(name) => {
                let text = self.text_of_variable(name)?;
                Ok(plain_name(text.bytes()))
            }
            KeyWord::Plain(key) => Ok(plain_name(key.bytes())),
        }
    }

    /// The key of a word, where it is a name, as a poll wants it.
    pub fn cell_key(&self, word: &KeyWord) -> Result<Option<Name>, NoMemory>
        ensures { IfOk result (λ key. key
            ≡ any_name (key_text (setting_in self.now) (local_in self.now) word.now)) }
    {
        match word {
            KeyWord::Input => Ok(any_name(self.given.input.bytes())),
            KeyWord::Of(name) => {
                let text = self.text_of_variable(name)?;
                Ok(any_name(text.bytes()))
            }
            KeyWord::Plain(key) => Ok(any_name(key.bytes())),
        }
    }
}
