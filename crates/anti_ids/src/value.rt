ghost use Rattle.std.specs.Prelude.{◌≡◌, ◌<◌, ◌≤◌, [], false, length, IfOk, IsErrOf};
ghost use Rattle.std.specs.Str.{is_utf8};
ghost use Rattle.anti_ids.specs.Answers.{AnswersBut};
ghost use Rattle.anti_ids.specs.Invariants.{IsValue};
ghost use Rattle.anti_ids.specs.Values.{value_of};
ghost use Rattle.anti_ids.specs.declared.value.ValueFault.TheVariants as faults;

use crate::copies::Copies;
use crate::limits::LONGEST_VALUE;
use crate::memory::NoMemory;
use crate::text::Text;
use std::alloc::Global;
use std::marker::Model;
use thiserror::Error;

/// Why bytes are no value. The faults of the bytes are tried in this order.
#[derive(Clone, Copy, Debug, PartialEq, Eq, Error)]
pub enum ValueFault {
    /// There are more than `LONGEST_VALUE` bytes.
    #[error("a value has {LONGEST_VALUE} bytes at most")]
    TooLong,
    /// The bytes are no UTF-8.
    #[error("a value is UTF-8")]
    BadUtf8,
    /// There was no memory for the value.
    #[error("no memory for the value")]
    NoMemory,
}

/// A value: 0 to 256 bytes of UTF-8. Its copies share its memory.
pub struct Value {
    text: Option<Text>,
}

impl Model for Value {
    ghost use Rattle.std.specs.Prelude.{List, ℕ};
    ghost use Rattle.anti_ids.specs.Invariants.{IsValue};
    ghost use Rattle.anti_ids.specs.inner.Texts.{bytes_of};

    ghost Value = { List ℕ };

    ghost view = { λ v. bytes_of v.text };

    ghost invariant = { λ v. IsValue (bytes_of v.text) };
}

// By hand, so that no caller sees the fields.
impl Drop for Value {
    fn drop(self) {
        let Value { text } = self;
        drop(text);
    }
}

fn is_text(bytes: &[u8]) -> bool
    ensures { result ≡ is_utf8 bytes.now }
{
    match std::str::from_utf8(bytes) {
        Ok(_) => true,
        Err(_) => false,
    }
}

impl Value {
    /// The value with these bytes.
    pub fn new(alloc: Global, text: &[u8]) -> Result<Value, ValueFault>
        ensures { AnswersBut faults.NoMemory result (value_of text.now) }
    {
        if text.len() > LONGEST_VALUE {
            return Err(ValueFault::TooLong);
        }
        if !is_text(text) {
            return Err(ValueFault::BadUtf8);
        }
        if text.is_empty() {
            return Ok(Value { text: None });
        }
        match Text::copied(alloc, text) {
            Ok(text) => Ok(Value { text: Some(text) }),
            Err(NoMemory) => Err(ValueFault::NoMemory),
        }
    }

    /// The value of no bytes. It takes no memory.
    pub fn empty(_alloc: Global) -> Value
        ensures { result ≡ [] }
    {
        Value { text: None }
    }

    /// The bytes of the value.
    pub fn bytes(&self) -> &[u8]
        ensures bytes { result.now ≡ self.now }
        ensures value { IsValue self.now }
    {
        match &self.text {
            Some(text) => text.bytes(),
            None => &[],
        }
    }
}

impl Copies for Value {
    fn copy(&self, _alloc: Global) -> Result<Value, NoMemory> {
        match &self.text {
            Some(text) => Ok(Value {
                text: Some(text.share()?),
            }),
            None => Ok(Value { text: None }),
        }
    }
}
