ghost use Rattle.std.specs.Prelude.{◌≡◌, ℕ, List, [], ◌∷◌, Some, IfOk, unwrap_or};
ghost use Rattle.anti_ids.specs.List.{plain};
ghost use Rattle.anti_kind.specs.declared.call.Reply.TheVariants.{Shown};
ghost use Rattle.anti_kind.specs.declared.entry.Entry.{Entry};
ghost use Rattle.anti_kind.specs.Stored.{row_of, shows_of};
ghost use Rattle.anti_kind.specs.Store.{Store, absent, shown_row};

use crate::replicas::Replicas;
use anti_ids::{Copies, Lineage, MOST_REGIONS, Name, NoMemory, Value};
use anti_kind::{Reply, Row, Rows};

impl Replicas {
    ghost use Rattle.anti_replicas.specs.inner.Newest.{key_number};
    ghost use Rattle.anti_replicas.specs.Stores.{At, showing_whole};

    /// The greatest version of the key that is whole at the region, 0 where none is.
    pub fn shown_version(&self, region: u32, key: &Name) -> u64
        ensures { (s : Store) (h : List Entry) → At self.now s h
            → result ≡ shows_of s.kind h region key.now }
    {
        if region as usize >= MOST_REGIONS {
            return 0;
        }
        self.newest.version(region, key)
    }

    // The same of a key that has the number.
    pub(crate) fn version_at(&self, region: u32, number: usize) -> u64
        ensures { (s : Store) (h : List Entry) (key : List ℕ) → At self.now s h → key_number self.now.newest key ≡ Some number
            → result ≡ shows_of s.kind h region key }
    {
        if region as usize >= MOST_REGIONS {
            return 0;
        }
        self.newest.version_at(region, number)
    }

    // The row of the version, or that of a key of which nothing is shown.
    fn row_or_absent(&self, version: u64, key: &Name) -> Result<Row, NoMemory>
        ensures { (s : Store) (h : List Entry) → At self.now s h
            → IfOk result (λ row. row ≡ unwrap_or (row_of h version) (absent key.now)) }
    {
        match self.kept_at(version) {
            Some(kept) => kept.row.copy(self.alloc),
            None => Ok(Row {
                key: *key,
                version: 0,
                value: Value::empty(self.alloc),
                lineage: Lineage::root(self.alloc),
            }),
        }
    }

    /// The reply to a read of the key where this version of it is shown.
    pub fn read_version(&self, version: u64, key: &Name) -> Result<Reply, NoMemory>
        ensures { (s : Store) (h : List Entry) → At self.now s h
            → IfOk result (λ reply. reply ≡ Shown (plain (unwrap_or (row_of h version) (absent key.now) ∷ []))) }
    {
        let row = self.row_or_absent(version, key)?;
        // room for just this row, since an entry keeps it
        let mut rows = Vec::with_capacity(self.alloc, 1)?;
        rows.push_reserved(row);
        Ok(Reply::Shown(Rows::from(rows)))
    }

    /// The reply to a read: the row of the key that the region shows.
    pub fn read(&self, region: u32, key: &Name) -> Result<Reply, NoMemory>
        ensures { (s : Store) (h : List Entry) → At self.now s h
            → IfOk result (λ reply. reply ≡ Shown (plain (shown_row (showing_whole s) h region key.now ∷ []))) }
    {
        self.read_version(self.shown_version(region, key), key)
    }
}
