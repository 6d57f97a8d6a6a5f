ghost use Rattle.std.specs.Prelude.{◌≡◌, ℕ, [], ◌∷◌, ◌++◌, decimal, length, take, IfOk, OnOk, List as Items};
ghost use Rattle.std.specs.List.{flat_map};
ghost use Rattle.anti_ids.specs.List.{plain};
ghost use Rattle.anti_baggage.specs.Escapes.{escaped};
ghost use Rattle.anti_baggage.specs.Texts.{id_text, store_name};

use crate::overwrite::{MOST_DIGITS, overwrite, overwrite_number};
use crate::plain::is_plain;
use anti_baggage::escape;
use anti_ids::{Bytes, List, Name, NoMemory, WriteId};
use itoa::Buffer;
use std::alloc::Global;
use std::marker::Model;

/// Text that grows at its end. Contracts see its bytes.
#[derive(Drop)]
pub struct Output {
    // The text, and behind it bytes that are ready to be written over.
    bytes: Vec<u8>,
    // How many bytes the text has.
    len: usize,
}

impl Model for Output {
    ghost use Rattle.std.specs.Prelude.{◌≤◌, ℕ, List, length, take};

    ghost Value = { List ℕ };

    ghost view = { λ o. take o.len o.bytes.items };

    ghost invariant = { λ o. o.len ≤ length o.bytes.items };
}

// What is made ready at once.
static READY: [u8; 1024] = [0; 1024];

// The name of a store by its number; no bytes where there is none.
fn store_name(stores: &[Name], store: u32) -> &[u8]
    ensures { result.now ≡ store_name stores.now store }
{
    match stores.get(store as usize) {
        Some(name) => name.bytes(),
        None => &[],
    }
}

impl Output {
    /// No text.
    pub fn new(alloc: Global) -> Output
        ensures { result ≡ [] }
    {
        Output {
            bytes: Vec::new(alloc),
            len: 0,
        }
    }

    /// No text, and room for so many bytes.
    pub fn with_room(alloc: Global, count: usize) -> Result<Output, NoMemory>
        ensures { IfOk result (λ out. out ≡ []) }
    {
        let bytes = Vec::with_capacity(alloc, count)?;
        Ok(Output { bytes, len: 0 })
    }

    /// Adds bytes at the end.
    #[inline(always)]
    pub fn put(&mut self, bytes: &[u8]) -> Result<(), NoMemory>
        ensures { OnOk result (self.new ≡ self.old ++ bytes.now) }
    {
        if bytes.len() > self.bytes.len() - self.len {
            return self.put_far(bytes);
        }
        self.len = overwrite(self.bytes.as_mut_slice(), self.len, bytes);
        Ok(())
    }

    // Adds bytes at the end where not so many are ready, and makes some ready behind them.
    #[cold]
    #[inline(never)]
    fn put_far(&mut self, bytes: &[u8]) -> Result<(), NoMemory>
        ensures { OnOk result (self.new ≡ self.old ++ bytes.now) }
    {
        self.bytes.truncate(self.len);
        if self.bytes.extend_from_slice(bytes).is_err() {
            return Err(NoMemory);
        }
        self.len = self.bytes.len();
        if self.bytes.extend_from_slice(&READY).is_err() {
            return Err(NoMemory);
        }
        Ok(())
    }

    /// Adds a number at the end.
    #[inline(always)]
    pub fn number(&mut self, number: u64) -> Result<(), NoMemory>
        ensures { OnOk result (self.new ≡ self.old ++ decimal number) }
    {
        if self.bytes.len() - self.len < MOST_DIGITS {
            return self.number_far(number);
        }
        self.len = overwrite_number(self.bytes.as_mut_slice(), self.len, number);
        Ok(())
    }

    /// Adds bytes at the end, and a number behind them.
    #[inline(always)]
    pub fn numbered(&mut self, before: &[u8], number: u64) -> Result<(), NoMemory>
        ensures { OnOk result (self.new ≡ self.old ++ before.now ++ decimal number) }
    {
        self.put(before)?;
        self.number(number)
    }

    // Adds a number at the end where not so many bytes are ready.
    #[cold]
    #[inline(never)]
    fn number_far(&mut self, number: u64) -> Result<(), NoMemory>
        ensures { OnOk result (self.new ≡ self.old ++ decimal number) }
    {
        let mut digits = Buffer::new();
        self.put_far(digits.format(number).as_bytes())
    }

    /// Adds texts at the end, one behind another.
    pub fn put_all(&mut self, texts: &[&[u8]]) -> Result<(), NoMemory>
        ensures { OnOk result (self.new ≡ self.old ++ flat_map (λ text. text.now) texts.now) }
    {
        for text in texts {
            self.put(*text)?;
        }
        Ok(())
    }

    /// Adds bytes at the end, each that is not unreserved escaped.
    pub fn escaped(&mut self, bytes: &[u8]) -> Result<(), NoMemory>
        ensures { OnOk result (self.new ≡ self.old ++ escaped bytes.now) }
    {
        if is_plain(bytes) {
            return self.put(bytes);
        }
        let mut text = List::new(*self.bytes.allocator());
        escape(&mut text, bytes)?;
        self.put(text.bytes())
    }

    /// Adds an id at the end, over the names of the stores by their numbers.
    pub fn id(&mut self, stores: &[Name], id: &WriteId) -> Result<(), NoMemory>
        ensures { OnOk result (self.new ≡ self.old ++ id_text stores.now id.now) }
    {
        self.escaped(store_name(stores, id.store))?;
        self.put(b"/")?;
        self.escaped(id.key.bytes())?;
        self.put(b"@")?;
        self.number(id.version)
    }

    /// Takes away what stands behind so many bytes.
    pub fn cut(&mut self, count: usize)
        ensures { self.new ≡ take count self.old }
    {
        self.len = self.len.min(count);
    }

    /// Takes the last byte away.
    pub fn take_last(&mut self)
        ensures { (front : Items ℕ) (last : ℕ) → self.old ≡ front ++ last ∷ [] → self.new ≡ front }
    {
        self.len = self.len.saturating_sub(1);
    }

    /// The text.
    pub fn bytes(&self) -> &[u8]
        ensures { result.now ≡ self.now }
    {
        &self.bytes[..self.len]
    }

    /// How many bytes the text has.
    pub fn len(&self) -> usize
        ensures { result ≡ length self.now }
    {
        self.len
    }

    /// The text as a list of bytes.
    pub fn into_bytes(self) -> Bytes
        ensures { result ≡ plain self }
    {
        let Output { mut bytes, len } = self;
        bytes.truncate(len);
        Bytes::from(List::from(bytes))
    }
}
