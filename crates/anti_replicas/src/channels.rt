ghost use Rattle.std.specs.Prelude.{◌≡◌, true, false, ℕ, List, [], ◌∷◌, ◌++◌, Some, OnOk};
ghost use Rattle.anti_ids.specs.Names.{is_plain};
ghost use Rattle.anti_ids.specs.declared.id.WriteId.{WriteId};
ghost use Rattle.anti_kind.specs.Kinds.{facts_of};
ghost use Rattle.anti_kind.specs.declared.call.Call.TheVariants.{Write};
ghost use Rattle.anti_kind.specs.declared.entry.Entry.{Entry};
ghost use Rattle.anti_kind.specs.Store.{Store, key_for};
ghost use Rattle.anti_kind.specs.Objects.{store, Follows, IsLegal};
ghost use Rattle.anti_replicas.specs.Channels.{count_at, HasChannel, Counts};

use crate::cells::cell_key;
use anti_ids::{Name, NoMemory};
use std::alloc::Global;
use std::collections::BTreeMap;

/// How many writes each channel of a queue or a topic has. A channel has a place from its first write on.
pub struct Channels {
    pub(crate) counts: BTreeMap<Name, u64>,
}

// By hand, so that no caller sees the fields.
impl Drop for Channels {
    fn drop(self) {
        let Channels { counts } = self;
        drop(counts);
    }
}

impl Channels {
    /// No channel has a write.
    pub fn new(alloc: Global) -> Channels
        ensures { Counts result [] }
    {
        Channels {
            counts: BTreeMap::new(alloc),
        }
    }

    /// How many writes the channel has.
    pub fn count(&self, channel: &Name) -> u64
        ensures { result ≡ count_at self.now channel.now }
    {
        match self.counts.get(channel) {
            Some(count) => *count,
            None => 0,
        }
    }

    /// The key that the next write to the channel gets.
    pub fn next_key(&self, channel: &Name) -> Option<Name>
        ensures { (s : Store) (h : List Entry) → IsLegal (store s) h → Counts self.now h
            → (facts_of s.kind).keyed ≡ false → is_plain channel.now ≡ true
            → result ≡ Some (key_for s.kind h channel.now) }
    {
        cell_key(channel, self.count(channel).saturating_add(1))
    }

    /// Makes a place for the channel, if it has none yet. What was counted stays.
    pub fn make_place(&mut self, channel: Name) -> Result<(), NoMemory>
        ensures counts { (h : List Entry) → Counts self.old h → Counts self.new h }
        ensures place { OnOk result (HasChannel self.new channel) }
    {
        if self.counts.contains_key(&channel) {
            return Ok(());
        }
        match self.counts.insert(channel, 0) {
            Ok(_) => Ok(()),
            Err(_) => Err(NoMemory),
        }
    }

    /// Counts a write to the channel, which has a place. It takes no memory.
    pub fn add(&mut self, channel: &Name)
        requires { HasChannel self.old channel.now }
        ensures { (s : Store) (h : List Entry) (e : Entry) (value : List ℕ) (lineage : List WriteId)
            → IsLegal (store s) h → Follows (store s) h e → (facts_of s.kind).keyed ≡ false
            → e.call ≡ Write channel.now value lineage → Counts self.old h
            → Counts self.new (h ++ e ∷ []) }
    {
        if let Some(count) = self.counts.get_mut(channel) {
            *count = count.saturating_add(1);
        }
    }
}
