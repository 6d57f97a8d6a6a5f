ghost use Rattle.std.specs.Prelude.{◌≡◌, ◌+◌, ◌<◌, ◌≤◌, not, length, position, take, drop, true};
ghost use Rattle.std.proofs.Common.{rules};
ghost use Rattle.std.specs.Cmp.{partial_order_from_own_ties};
ghost use Rattle.std.specs.Cmp.Rules.{comparing, hashing};
ghost use Rattle.std.specs.Hash as fed;
ghost use Rattle.std.specs.Ordering.{nat_cmp, as_partial_cmp};
ghost use Rattle.std.specs.Cmp.Lexicographic.{slice_cmp};
ghost use Rattle.std.specs.Int.{from_be_bytes, w64};
ghost use Rattle.std.specs.List.{list_all};
ghost use Rattle.std.specs.Str.{bytes_eq};
ghost use Rattle.anti_ids.specs.Names.{name_of, is_name, is_name_byte, is_plain, is_plain_byte};
ghost use Rattle.anti_ids.specs.NameBytes.{padded};

use crate::copies::Copies;
use crate::limits::{LONGEST_NAME, LONGEST_PLAIN_NAME};
use crate::memory::NoMemory;
use std::alloc::Global;
use std::cmp::Ordering;
use std::hash::{Hash, Hasher};
use std::marker::Model;
use thiserror::Error;

/// Why bytes are no name. The faults are tried in this order.
#[derive(Clone, Copy, Debug, PartialEq, Eq, Error)]
pub enum NameFault {
    /// There is no byte.
    #[error("a name has one byte at least")]
    Empty,
    /// There are more than `LONGEST_NAME` bytes.
    #[error("a name has {LONGEST_NAME} bytes at most")]
    TooLong,
    /// The byte at this position, counted from 0, is the first that no name has.
    #[error("the byte at position {0} is none of a name")]
    BadByte(u32),
}

/// A name: 1 to `LONGEST_NAME` bytes, each an ASCII letter, a digit, `_`, `-` or `#`. It takes no memory.
#[derive(Clone, Copy, Debug)]
pub struct Name {
    text: [u8; LONGEST_NAME],
    len: u8,
}

impl Model for Name {
    ghost use Rattle.std.specs.Prelude.{List, ℕ, take, length};
    ghost use Rattle.anti_ids.specs.NameBytes.{HoldsName, padded, again};

    ghost Value = { List ℕ };

    ghost view = { λ n. take n.len n.text };

    ghost invariant = { λ n. HoldsName n.text n.len };

    ghost inverse = { λ name. record { text = padded name; len = length name } };

    ghost inverse_ok = { λ n held. again n.text n.len held };
}

// Whether a byte may stand in a plain name.
fn is_plain_byte(byte: u8) -> bool
    ensures { result ≡ is_plain_byte byte }
{
    matches!(byte, b'0'..=b'9' | b'A'..=b'Z' | b'a'..=b'z' | b'_' | b'-')
}

// Whether a byte may stand in a name.
fn is_name_byte(byte: u8) -> bool
    ensures { result ≡ is_name_byte byte }
{
    is_plain_byte(byte) || byte == b'#'
}

// Where the first byte stands that no name has.
fn first_bad(bytes: &[u8]) -> Option<usize>
    ensures { result ≡ position (λ b. not (is_name_byte b)) bytes.now }
{
    bytes.iter().position(|b| !is_name_byte(*b))
}

// Whether each byte may stand in a plain name.
fn all_plain(bytes: &[u8]) -> bool
    ensures { result ≡ list_all is_plain_byte bytes.now }
{
    bytes.iter().all(|b| is_plain_byte(*b))
}

// The bytes, and zeros behind them.
fn padded(bytes: &[u8]) -> [u8; LONGEST_NAME]
    requires { length bytes.now ≤ LONGEST_NAME }
    ensures { result ≡ padded bytes.now }
{
    let mut text = [0; LONGEST_NAME];
    text[..bytes.len()].copy_from_slice(bytes);
    text
}

// Eight bytes of a text, as one number with the big end first, so that numbers are ordered as their bytes.
fn word(text: &[u8; LONGEST_NAME], at: usize) -> u64
    requires { at + 8 ≤ LONGEST_NAME }
    ensures { result ≡ from_be_bytes w64 (take 8 (drop at text.now)) }
{
    match text.split_at(at).1.first_chunk::<8>() {
        Some(bytes) => u64::from_be_bytes(*bytes),
        None => unreachable!(), // there are as many
    }
}

// Whether two texts are the same. Eight bytes are compared at once.
fn are_same(one: &[u8; LONGEST_NAME], other: &[u8; LONGEST_NAME]) -> bool
    ensures { result ≡ bytes_eq one.now other.now }
{
    let mut at = 0;
    while at < LONGEST_NAME {
        if word(one, at) != word(other, at) {
            return false;
        }
        at += 8;
    }
    true
}

// The order of two texts. Eight bytes are compared at once.
fn order(one: &[u8; LONGEST_NAME], other: &[u8; LONGEST_NAME]) -> Ordering
    ensures { result ≡ slice_cmp nat_cmp one.now other.now }
{
    let mut at = 0;
    while at < LONGEST_NAME {
        let this = word(one, at);
        let that = word(other, at);
        if this != that {
            return this.cmp(&that);
        }
        at += 8;
    }
    Ordering::Equal
}

impl Name {
    /// The name with these bytes.
    pub fn new(bytes: &[u8]) -> Result<Name, NameFault>
        ensures { result ≡ name_of bytes.now }
    {
        if bytes.is_empty() {
            return Err(NameFault::Empty);
        }
        if bytes.len() > LONGEST_NAME {
            return Err(NameFault::TooLong);
        }
        match first_bad(bytes) {
            Some(at) => Err(NameFault::BadByte(at as u32)),
            None => Ok(Name {
                text: padded(bytes),
                len: bytes.len() as u8,
            }),
        }
    }

    /// The bytes of the name.
    pub fn bytes(&self) -> &[u8]
        ensures value { result.now ≡ self.now }
        ensures name { is_name self.now ≡ true }
    {
        &self.text[..self.len as usize]
    }

    /// Whether the name has no `#` and at most `LONGEST_PLAIN_NAME` bytes.
    pub fn plain(&self) -> bool
        ensures { result ≡ is_plain self.now }
    {
        let bytes = self.bytes();
        if bytes.is_empty() || bytes.len() > LONGEST_PLAIN_NAME {
            return false;
        }
        all_plain(bytes)
    }
}

impl Copies for Name {
    fn copy(&self, _alloc: Global) -> Result<Name, NoMemory> {
        Ok(*self)
    }
}

impl PartialEq for Name {
    ghost eq = { bytes_eq };

    ghost laws = { Prim.search (comparing, rules) };

    // Zeros stand behind a name's bytes and none among them, so that names are the same where their texts are.
    fn eq(&self, other: &Name) -> bool {
        are_same(&self.text, &other.text)
    }
}

impl Eq for Name {
    ghost laws = { Prim.search (comparing, rules) };
}

impl Hash for Name {
    ghost hash_input = { fed.slice fed.u8 };

    ghost respects_eq = { Prim.search (hashing, rules) };

    fn hash<H: Hasher>(&self, state: &mut H) {
        self.bytes().hash(state);
    }
}

impl Ord for Name {
    ghost cmp = { slice_cmp nat_cmp };

    ghost total = { Prim.search (comparing, rules) };

    ghost matches_partial_cmp = { Prim.search (comparing, rules) };

    ghost matches_eq = { Prim.search (comparing, rules) };

    // Zeros stand behind a name's bytes and none among them, so that names are ordered as their texts.
    fn cmp(&self, other: &Name) -> Ordering {
        order(&self.text, &other.text)
    }
}

impl PartialOrd for Name {
    ghost partial_cmp = { as_partial_cmp (slice_cmp nat_cmp) };

    ghost laws = { partial_order_from_own_ties (Prim.search (comparing, rules)) (Prim.search (comparing, rules)) };

    fn partial_cmp(&self, other: &Name) -> Option<Ordering> {
        Some(self.cmp(other))
    }
}
