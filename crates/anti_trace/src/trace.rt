ghost use Rattle.std.specs.Prelude.{◌≡◌, ◌==◌, ◌<◌, ◌^◌, length, slice_get};
ghost use Rattle.anti_trace.specs.Traces.{IsTrace};

use anti_kind::Entry;
use std::marker::Model;

/// The entries of all objects, each before every later one by its stamp, or by its object number where the stamps are equal.
/// There are fewer than 2^32 of them.
pub struct Trace {
    entries: Vec<Entry>,
}

impl Model for Trace {
    ghost use Rattle.std.specs.Prelude.{List, ◌<◌, ◌^◌, vec_len};
    ghost use Rattle.anti_kind.specs.declared.entry.Entry.{Entry};
    ghost use Rattle.anti_trace.specs.Traces.{IsTrace};

    ghost Value = { List Entry };

    ghost view = { λ t. t.entries.items };

    ghost invariant = { λ t. IsTrace t.entries.items × (vec_len t.entries < 2 ^ 32) };
}

// By hand, so that no caller sees the fields.
impl Drop for Trace {
    fn drop(self) {
        let Trace { entries } = self;
        drop(entries);
    }
}

impl Trace {
    /// The trace of entries that stand in their order already.
    pub fn of(entries: Vec<Entry>) -> Trace
        requires order { IsTrace entries.items }
        requires few { length entries.items < 2 ^ 32 }
        ensures { result ≡ entries.items }
    {
        Trace { entries }
    }

    /// The number of entries.
    pub fn len(&self) -> u32
        ensures len { result ≡ length self.now }
        ensures order { IsTrace self.now }
    {
        self.entries.len() as u32
    }

    /// Whether there is no entry.
    pub fn is_empty(&self) -> bool
        ensures { result ≡ (length self.now == 0) }
    {
        self.entries.is_empty()
    }

    /// The entry at an index, counted from 0.
    pub fn at(&self, index: u32) -> &Entry
        requires { index < length self.now }
        ensures { slice_get self.now index ≡ Some result.now }
    {
        &self.entries[index as usize]
    }

    /// The entries.
    pub fn as_slice(&self) -> &[Entry]
        ensures entries { result.now ≡ self.now }
        ensures order { IsTrace result.now }
        ensures few { length result.now < 2 ^ 32 }
    {
        self.entries.as_slice()
    }

    /// The entries, taken out.
    pub fn into_entries(self) -> Vec<Entry>
        ensures entries { result.items ≡ self }
        ensures order { IsTrace result.items }
        ensures few { length result.items < 2 ^ 32 }
    {
        let Trace { entries } = self;
        entries
    }
}
