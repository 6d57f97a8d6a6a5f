ghost use Rattle.std.specs.Prelude.{◌≡◌, ◌≤◌, List, [], ◌∷◌, ◌++◌};
ghost use Rattle.anti_kind.specs.declared.call.Call.TheVariants.{Write};
ghost use Rattle.anti_kind.specs.declared.entry.Entry.{Entry};
ghost use Rattle.anti_kind.specs.Stored.{parts_of};
ghost use Rattle.anti_kind.specs.Store.{Store, store_need, owed_shipments};
ghost use Rattle.anti_kind.specs.Objects.{store, weight, held, Follows};

use crate::kept_write::MOST_PARTS;
use crate::replicas::Replicas;
use anti_ids::{Lineage, MOST_UNITS, Name, PART_BYTES, Value};
use anti_kind::{Call, StoreKind};

// How many parts a value has.
pub(crate) fn parts_of(kind: StoreKind, value: &Value) -> u8
    ensures is { result ≡ parts_of kind value.now }
    ensures some { 1 ≤ result }
    ensures few { result ≤ MOST_PARTS }
{
    if !kind.facts().parted {
        return 1;
    }
    let parts = (value.bytes().len() + (PART_BYTES - 1)) / PART_BYTES;
    parts.max(1) as u8
}

impl Replicas {
    ghost use Rattle.anti_replicas.specs.inner.Standing.{Stands};
    ghost use Rattle.anti_replicas.specs.Stores.{At, showing_whole, IsOther, kind_of, number_of, regions_of};

    /// The units of the calls that were made.
    pub fn held(&self) -> u32
        ensures { (s : Store) (h : List Entry) → At self.now s h → result ≡ held h }
    {
        self.held
    }

    /// The units that are reserved for shipments.
    pub fn owed(&self) -> u32
        ensures { (s : Store) (h : List Entry) → At self.now s h → result ≡ owed_shipments s h }
    {
        self.owed
    }

    // The units that a write needs: more than an object has, where it would keep more ids than a lineage may have.
    fn write_units(&self, key: &Name, value: &Value, lineage: &Lineage) -> u32
        ensures { (s : Store) (h : List Entry) → At self.now s h
            → result ≡ store_need (showing_whole s) h (Write key.now value.now lineage.now) }
    {
        if !self.keeps_few(key, lineage) {
            return MOST_UNITS + 1;
        }
        1 + u32::from(self.replicas) * u32::from(parts_of(self.kind, value))
    }

    /// The units that a call needs, whether it is ready or not, where regions show the greatest version that is whole there.
    pub fn need(&self, call: &Call) -> u32
        ensures { (s : Store) (h : List Entry) → At self.now s h
            → result ≡ store_need (showing_whole s) h call.now }
    {
        match call {
            Call::Write {
                key,
                value,
                lineage,
            } => self.write_units(key.get(), value, lineage.get()),
            Call::Scan { region, prefix } => self.scan_units(*region, prefix),
            Call::Pull { .. } => { if self.kind.facts().tried { 2 } else { 1 } }
            Call::Ship { .. } => 0,
            Call::Ack { .. } => 0,
            Call::Nack { .. } => 0,
            _ => 1,
        }
    }

    /// Takes note of a call that was made, which wrote and shipped nothing, and whose reply weighs so many units. It takes no
    /// memory.
    pub fn note(&mut self, units: u32)
        ensures stands { (s : Store) (h : List Entry) (e : Entry) → At self.old s h
            → Follows (store s) h e → IsOther e.call → weight e.reply ≡ units
            → Stands self.new s (h ++ e ∷ []) }
        ensures kind { kind_of self.new ≡ kind_of self.old }
        ensures number { number_of self.new ≡ number_of self.old }
        ensures regions { regions_of self.new ≡ regions_of self.old }
    {
        self.held = self.held.saturating_add(units);
    }
}
