ghost use Rattle.std.specs.Prelude.{◌≡◌, ◌<◌, ◌^◌, ◌==◌, not, true, List, Some};
ghost use Rattle.std.specs.List.{prefix_len};
ghost use Rattle.anti_ids.specs.Ascii.{hash};
ghost use Rattle.anti_ids.specs.Names.{is_plain};
ghost use Rattle.anti_kind.specs.declared.entry.Entry.{Entry};
ghost use Rattle.anti_kind.specs.Stored.{channel_of};
ghost use Rattle.anti_kind.specs.Store.{Store};
ghost use Rattle.anti_kind.specs.Cells.{cell_key, is_cell};

use crate::replicas::Replicas;
use anti_ids::{LONGEST_NAME, Name};
use arrayvec::ArrayVec;
use itoa::Buffer;

/// The key of the cell of this number of a channel, counted from 1: for the nth of the channel c it is c#n. There is none where
/// that is no name.
#[tactic(auto, using(crate::proofs::Keys::fits, crate::proofs::Keys::named))]
pub fn cell_key(channel: &Name, number: u64) -> Option<Name>
    ensures { is_plain channel.now ≡ true → number < 10 ^ 7
        → result ≡ Some (cell_key channel.now number) }
{
    let mut buffer = Buffer::new();
    let digits = buffer.format(number).as_bytes();
    let mut key = ArrayVec::<u8, LONGEST_NAME>::new();
    if key.try_extend_from_slice(channel.bytes()).is_err() {
        return None;
    }
    if key.try_push(b'#').is_err() {
        return None;
    }
    if key.try_extend_from_slice(digits).is_err() {
        return None;
    }
    match Name::new(key.as_slice()) {
        Ok(key) => Some(key),
        Err(_) => None,
    }
}

// How many bytes stand before the first `#`.
fn bytes_before_hash(key: &[u8]) -> usize
    ensures { result ≡ prefix_len (λ b. not (b == hash)) key.now }
{
    key.iter().take_while(|byte| **byte != b'#').count()
}

// The channel that the key of a cell names.
fn channel_of(key: &[u8]) -> &[u8]
    ensures { result.now ≡ channel_of key.now }
{
    key.split_at(bytes_before_hash(key)).0
}

impl Replicas {
    ghost use Rattle.anti_replicas.specs.Stores.{At};

    /// Whether the version is that of a cell of the channel.
    pub fn is_cell(&self, version: u64, channel: &Name) -> bool
        ensures { (s : Store) (h : List Entry) → At self.now s h
            → result ≡ is_cell h version channel.now }
    {
        match self.kept_at(version) {
            Some(kept) => channel_of(kept.row.key.bytes()) == channel.bytes(),
            None => false,
        }
    }
}
