ghost use Rattle.std.specs.Prelude.{◌≡◌, ◌<◌, ◌≤◌, [], ◌∷◌, ◌++◌, length, slice_get, ◌==◌, OnOk, OnErr, IsOk, IfOk, IfErr, IfNone, IfSome};
ghost use Rattle.anti_ids.specs.List.{empty, plain};
ghost use Rattle.anti_ids.specs.ListCalls.{pushed, reserved, extended};

use crate::copies::Copies;
use crate::list::List;
use crate::memory::NoMemory;
use crate::text::Text;
use std::alloc::Global;
use std::marker::Model;

/// A list of bytes. What is copied without room shares its memory with its further copies.
pub struct Bytes {
    memory: ByteMemory,
}

// Where bytes are held.
#[derive(Drop)]
pub(crate) enum ByteMemory {
    // In a list that nobody else holds.
    Own(List<u8>),
    // At the front of a text that others may hold: so many bytes.
    Front(Text, usize),
}

impl Model for Bytes {
    ghost use Rattle.std.specs.Prelude.{ℕ};
    ghost use Rattle.std.specs.Coded.{coded_ℕ};
    ghost use Rattle.anti_ids.specs.List.{Listed};
    ghost use Rattle.anti_ids.specs.ListCalls.{list_code};
    ghost use Rattle.anti_ids.specs.inner.Bytes.{listed_of, FrontFits};

    ghost Value = { Listed ℕ };

    ghost coded = { list_code coded_ℕ };

    ghost view = { λ b. listed_of b.memory };

    ghost invariant = { λ b. FrontFits b.memory };
}

// By hand, so that no caller sees the fields.
impl Drop for Bytes {
    fn drop(self) {
        let Bytes { memory } = self;
        drop(memory);
    }
}

impl Bytes {
    /// No bytes. They take no memory.
    pub fn new(alloc: Global) -> Bytes
        ensures { result ≡ empty }
    {
        Bytes {
            memory: ByteMemory::Own(List::new(alloc)),
        }
    }

    /// Adds the byte at the end. Where there is room it is not refused, and takes no memory.
    pub fn push(&mut self, byte: u8) -> Result<(), (u8, NoMemory)>
        ensures ok { OnOk result (self.new ≡ pushed self.old byte) }
        ensures err { OnErr result (self.new ≡ self.old) }
        ensures given_back { IfErr result (λ e. e.0 ≡ byte) }
        ensures room { 0 < self.old.spare → IsOk result }
    {
        match &mut self.memory {
            ByteMemory::Own(list) => list.push(byte),
            ByteMemory::Front(text, _) => {
                let alloc = text.allocator();
                match self.own_with(alloc, &[byte], 0) {
                    Ok(()) => Ok(()),
                    Err(fault) => Err((byte, fault)),
                }
            }
        }
    }

    /// Takes the last byte away and gives it; `None` where there is none.
    pub fn pop(&mut self) -> Option<u8>
        ensures none { IfNone result (self.old.items ≡ []) }
        ensures unchanged { IfNone result (self.new ≡ self.old) }
        ensures some { IfSome result (λ byte. self.old.items ≡ self.new.items ++ byte ∷ []) }
        ensures spare { self.new.spare ≡ self.old.spare }
    {
        match &mut self.memory {
            ByteMemory::Own(list) => list.pop(),
            ByteMemory::Front(text, len) => {
                if *len == 0 {
                    return None;
                }
                *len -= 1;
                Some(text.bytes()[*len])
            }
        }
    }

    /// The number of bytes.
    pub fn len(&self) -> usize
        ensures { result ≡ length self.now.items }
    {
        match &self.memory {
            ByteMemory::Own(list) => list.len(),
            ByteMemory::Front(_, len) => *len,
        }
    }

    /// Whether there is no byte.
    pub fn is_empty(&self) -> bool
        ensures { result ≡ (length self.now.items == 0) }
    {
        self.len() == 0
    }

    /// The byte at an index, counted from 0.
    pub fn at(&self, index: usize) -> &u8
        requires { index < length self.now.items }
        ensures { slice_get self.now.items index ≡ Some result.now }
    {
        &self.bytes()[index]
    }

    /// The bytes.
    pub fn bytes(&self) -> &[u8]
        ensures { result.now ≡ self.now.items }
    {
        match &self.memory {
            ByteMemory::Own(list) => list.bytes(),
            ByteMemory::Front(text, len) => &text.bytes()[..*len],
        }
    }

    /// Makes room for at least `more` bytes. The bytes stay. Where the room is there it is not refused.
    pub fn reserve(&mut self, more: u32) -> Result<(), NoMemory>
        ensures ok { OnOk result (self.new ≡ reserved self.old more) }
        ensures err { OnErr result (self.new ≡ self.old) }
        ensures room { more ≤ self.old.spare → IsOk result }
    {
        match &mut self.memory {
            ByteMemory::Own(list) => list.reserve(more),
            ByteMemory::Front(text, _) => {
                if more == 0 {
                    return Ok(());
                }
                let alloc = text.allocator();
                self.own_with(alloc, &[], more)
            }
        }
    }

    /// Adds the bytes at the end, all of them or none.
    pub fn append(&mut self, bytes: &[u8]) -> Result<(), NoMemory>
        ensures ok { OnOk result (self.new ≡ extended self.old bytes.now (length bytes.now)) }
        ensures err { OnErr result (self.new ≡ self.old) }
        ensures room { length bytes.now ≤ self.old.spare → IsOk result }
    {
        match &mut self.memory {
            ByteMemory::Own(list) => list.append(bytes),
            ByteMemory::Front(text, _) => {
                if bytes.is_empty() {
                    return Ok(());
                }
                let alloc = text.allocator();
                self.own_with(alloc, bytes, 0)
            }
        }
    }

    // Puts the bytes into a list that nobody else holds, with further ones behind them and room for `more`.
    fn own_with(&mut self, alloc: Global, bytes: &[u8], more: u32) -> Result<(), NoMemory>
        ensures items { OnOk result (self.new.items ≡ self.old.items ++ bytes.now) }
        ensures spare { OnOk result (self.new.spare ≡ more) }
        ensures err { OnErr result (self.new ≡ self.old) }
    {
        let mut list = List::new(alloc);
        if list.append(self.bytes()).is_err()
            || list.append(bytes).is_err()
            || list.reserve(more).is_err()
        {
            return Err(NoMemory);
        }
        self.memory = ByteMemory::Own(list);
        Ok(())
    }
}

impl From<List<u8>> for Bytes {
    ghost from_gives = { λ list bytes. bytes ≡ list };

    fn from(list: List<u8>) -> Bytes {
        Bytes {
            memory: ByteMemory::Own(list),
        }
    }
}

// Bytes without room that their copies share.
fn shared(alloc: Global, bytes: &[u8]) -> Result<Bytes, NoMemory>
    ensures { IfOk result (λ b. b ≡ plain bytes.now) }
{
    if bytes.is_empty() {
        return Ok(Bytes::new(alloc));
    }
    let text = Text::copied(alloc, bytes)?;
    Ok(Bytes {
        memory: ByteMemory::Front(text, bytes.len()),
    })
}

impl Copies for Bytes {
    fn copy(&self, alloc: Global) -> Result<Bytes, NoMemory> {
        match &self.memory {
            ByteMemory::Own(list) => {
                if list.spare() == 0 {
                    return shared(alloc, list.bytes());
                }
                Ok(Bytes {
                    memory: ByteMemory::Own(list.copy(alloc)?),
                })
            }
            ByteMemory::Front(text, len) => Ok(Bytes {
                memory: ByteMemory::Front(text.share()?, *len),
            }),
        }
    }
}
