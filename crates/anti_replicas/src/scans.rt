ghost use Rattle.std.specs.Prelude.{◌≡◌, ◌<◌, max, List, length, IfOk};
ghost use Rattle.anti_kind.specs.declared.call.Reply.TheVariants.{Shown};
ghost use Rattle.anti_kind.specs.declared.entry.Entry.{Entry};
ghost use Rattle.anti_ids.specs.List.{plain};
ghost use Rattle.anti_kind.specs.Store.{Store, scanned};
ghost use Rattle.anti_replicas.specs.inner.Scans.{version_in};

use crate::newest::Newest;
use crate::replicas::Replicas;
use anti_ids::{MOST_REGIONS, Name, NoMemory};
use anti_kind::{Reply, Rows};

// The version that stands beside a key with this number at the region, where the key begins with the prefix, else 0.
fn version_in(newest: &Newest, region: u32, prefix: &Name, key: &Name, number: usize) -> u64
    requires { region < MOST_REGIONS }
    ensures { result ≡ version_in newest.now region prefix.now key.now number }
{
    if !key.bytes().starts_with(prefix.bytes()) {
        return 0;
    }
    newest.version_at(region, number)
}

impl Replicas {
    ghost use Rattle.anti_replicas.specs.Stores.{At, showing_whole};

    // The rows that the region shows for all keys with the prefix, ascending by the bytes of the key.
    fn scanned_rows(&self, region: u32, prefix: &Name) -> Result<Rows, NoMemory>
        ensures { (s : Store) (h : List Entry) → At self.now s h
            → IfOk result (λ rows. rows ≡ plain (scanned (showing_whole s) h region prefix.now)) }
    {
        let mut rows = Rows::new(self.alloc);
        if region as usize >= MOST_REGIONS {
            return Ok(rows);
        }
        for (key, number) in self.newest.numbers.iter() {
            let version = version_in(&self.newest, region, prefix, key, *number);
            if let Some(row) = self.written_row(version)? {
                rows.add(row)?;
            }
        }
        Ok(rows)
    }

    /// The reply to a scan: the rows that the region shows for all keys with the prefix, ascending by the bytes of the key.
    pub fn scan(&self, region: u32, prefix: &Name) -> Result<Reply, NoMemory>
        ensures { (s : Store) (h : List Entry) → At self.now s h
            → IfOk result (λ reply. reply ≡ Shown (plain (scanned (showing_whole s) h region prefix.now))) }
    {
        let rows = self.scanned_rows(region, prefix)?;
        Ok(Reply::Shown(rows))
    }

    // The units of a scan: one for each row, and one where there is none.
    pub(crate) fn scan_units(&self, region: u32, prefix: &Name) -> u32
        ensures { (s : Store) (h : List Entry) → At self.now s h
            → result ≡ max 1 (length (scanned (showing_whole s) h region prefix.now)) }
    {
        if region as usize >= MOST_REGIONS {
            return 1;
        }
        let mut count: u32 = 0;
        for (key, number) in self.newest.numbers.iter() {
            let version = version_in(&self.newest, region, prefix, key, *number);
            if self.is_version(version) {
                count = count.saturating_add(1);
            }
        }
        count.max(1)
    }
}
