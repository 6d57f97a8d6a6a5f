ghost use Rattle.std.specs.Prelude.{◌≡◌, ℕ, ◌+◌, ◌-◌, ◌*◌, ◌≤◌, ◌⊎◌, ◌<◌, List, [], ◌∷◌, ◌++◌, length, IfOk, OnOk, OnErr, IfSome, IfNone, slice_get, is_some, unwrap_or, None, Some};
ghost use Rattle.anti_kind.specs.declared.call.Call.TheVariants.{Write};
ghost use Rattle.anti_kind.specs.declared.entry.Entry.{Entry};
ghost use Rattle.anti_ids.specs.declared.limits.TheConstants.{MOST_UNITS};
ghost use Rattle.anti_kind.specs.Stored.{rows, row_of, parts_of};
ghost use Rattle.anti_kind.specs.Store.{Store};
ghost use Rattle.anti_kind.specs.Objects.{store, Follows};

use crate::backlog::IN_GROUP;
use crate::kept_write::KeptWrite;
use crate::newest::WRITTEN;
use crate::replicas::Replicas;
use crate::units::parts_of;
use anti_ids::{Copies, Lineage, MOST_REGIONS, Name, NoMemory, Value};
use anti_kind::{Handle, Reply, Row};

// What is kept beside a write: the lineage that its reply tells, or else that which was handed in.
fn kept_beside<'a>(over: &'a Option<Handle<Lineage>>, lineage: &'a Lineage) -> &'a Lineage
    ensures { result.now ≡ unwrap_or over.now lineage.now }
{
    match over {
        Some(union) => union.get(),
        None => lineage,
    }
}

impl Replicas {
    ghost use Rattle.anti_replicas.specs.declared.kept_write.KeptWrite.{KeptWrite};
    ghost use Rattle.anti_replicas.specs.inner.Backlogs.{AreBelow, AreBehind, HaveNext};
    ghost use Rattle.anti_replicas.specs.inner.Standing.{Stands, Keeps, Writable};
    ghost use Rattle.anti_replicas.specs.Stores.{At, MayWrite, kind_of, number_of, regions_of};

    /// The version of the next write.
    pub fn next_version(&self) -> u64
        ensures { (s : Store) (h : List Entry) → At self.now s h → result ≡ length (rows h) + 1 }
    {
        self.kept.len() as u64 + 1
    }

    // What is kept of a version.
    pub(crate) fn kept_at(&self, version: u64) -> Option<&KeptWrite>
        ensures first { IfSome result (λ kept. 1 ≤ version) }
        ensures kept { IfSome result (λ kept. slice_get self.now.kept.items (version - 1) ≡ Some kept.now) }
        ensures none { IfNone result ((version ≡ 0) ⊎ (length self.now.kept.items < version)) }
    {
        if version == 0 {
            return None;
        }
        self.kept.as_slice().get((version - 1) as usize)
    }

    /// Whether the version was written.
    pub fn is_version(&self, version: u64) -> bool
        ensures { (s : Store) (h : List Entry) → At self.now s h
            → result ≡ is_some (row_of h version) }
    {
        match self.kept_at(version) {
            Some(_) => true,
            None => false,
        }
    }

    /// The row of a version.
    pub fn row_at(&self, version: u64) -> Option<&Row>
        ensures some { (s : Store) (h : List Entry) → At self.now s h → IfSome result (λ row. row_of h version ≡ Some row.now) }
        ensures none { (s : Store) (h : List Entry) → At self.now s h → IfNone result (row_of h version ≡ None) }
    {
        match self.kept_at(version) {
            Some(kept) => Some(&kept.row),
            None => None,
        }
    }

    /// A copy of the row of a version.
    pub fn written_row(&self, version: u64) -> Result<Option<Row>, NoMemory>
        ensures { (s : Store) (h : List Entry) → At self.now s h
            → IfOk result (λ row. row ≡ row_of h version) }
    {
        match self.row_at(version) {
            Some(row) => Ok(Some(row.copy(self.alloc)?)),
            None => Ok(None),
        }
    }

    /// Writes a value which is handed in with this lineage, with the key and what is kept beside it by the reply to the write, in the next
    /// version. The shipments of its parts are owed from now on.
    pub fn write(&mut self, value: &Value, lineage: &Lineage, reply: &Reply) -> Result<(), NoMemory>
        requires { MayWrite self.old value.now lineage.now reply.now }
        ensures stands { (s : Store) (h : List Entry) (e : Entry) (name : List ℕ) → At self.old s h
            → Follows (store s) h e → e.call ≡ Write name value.now lineage.now → e.reply ≡ reply.now
            → OnOk result (Stands self.new s (h ++ e ∷ [])) }
        ensures err { (s : Store) (h : List Entry) → Stands self.old s h → OnErr result (Stands self.new s h) }
        ensures kind { kind_of self.new ≡ kind_of self.old }
        ensures number { number_of self.new ≡ number_of self.old }
        ensures regions { regions_of self.new ≡ regions_of self.old }
    {
        let Reply::Written { key, over, .. } = reply else {
            unreachable!(); // that is the reply to a write
        };
        self.keep(*key.get(), value, kept_beside(over, lineage))
    }

    // Puts the group of the next version into the backlog of each replica, where that version is the first of it. Where a write found no
    // memory some have the group already, and keep it.
    fn await_next(&mut self) -> Result<(), NoMemory>
        requires regions { AreBelow self.old.regions.items }
        requires behind { AreBehind self.old.regions.items self.old.kept.items self.old.backlogs.items }
        requires few { length self.old.kept.items ≤ MOST_UNITS }
        ensures only { self.new ≡ record self.old { backlogs = self.new.backlogs } }
        ensures behind { AreBehind self.old.regions.items self.old.kept.items self.new.backlogs.items }
        ensures ok { OnOk result (HaveNext self.old.regions.items self.old.kept.items self.new.backlogs.items) }
    {
        let kept = self.kept.len() as u64;
        // the group of the versions before it is not full
        if kept % IN_GROUP != 0 {
            return Ok(());
        }
        for at in 0..self.regions.len() {
            let region = self.regions[at];
            let backlog = &mut self.backlogs[region as usize];
            if backlog.last_put().saturating_mul(IN_GROUP) <= kept {
                backlog.push()?;
            }
        }
        Ok(())
    }

    // Keeps one more write.
    fn keep(&mut self, key: Name, value: &Value, lineage: &Lineage) -> Result<(), NoMemory>
        requires { Writable self.old (parts_of self.old.kind value.now) }
        ensures ok { OnOk result (Keeps self.old self.new
            (record { key = key; version = length self.old.kept.items + 1; value = value.now; lineage = lineage.now })) }
        ensures err { (s : Store) (h : List Entry) → Stands self.old s h → OnErr result (Stands self.new s h) }
        ensures kind { kind_of self.new ≡ kind_of self.old }
        ensures number { number_of self.new ≡ number_of self.old }
        ensures regions { regions_of self.new ≡ regions_of self.old }
    {
        let parts = parts_of(self.kind, value);
        let version = self.kept.len() as u64 + 1;
        let row = Row {
            key,
            version,
            value: value.copy(self.alloc)?,
            lineage: lineage.copy(self.alloc)?,
        };
        let number = self.newest.make_place(key)?;
        self.await_next()?;
        let kept = KeptWrite {
            row,
            marks: [0; MOST_REGIONS],
            parts,
            number,
        };
        if self.kept.push(kept).is_err() {
            return Err(NoMemory);
        }
        self.newest.bring(WRITTEN, number, version);
        self.longest = self.longest.max(lineage.len());
        self.held += 1;
        self.owed += u32::from(self.replicas) * u32::from(parts);
        Ok(())
    }
}
