ghost use Rattle.std.specs.Prelude.{◌≡◌, ◌+◌, ◌<◌, ◌≤◌, ◌||◌, not, length, OnOk, OnErr, IfOk};
ghost use Rattle.anti_ids.specs.Ids.{has_id, is_id, with_id, with_ids};

use crate::ascending::{add_all, count_new, place_of, put_at};
use crate::held_ids::HeldIds;
use crate::id::WriteId;
use crate::limits::MOST_IDS;
use crate::lineage::Lineage;
use std::marker::Model;
use thiserror::Error;

/// A lineage with room for further ids, which takes no memory. How many can be added to it is part of its value.
#[derive(Drop)]
pub struct Roomy {
    pub(crate) ids: Vec<WriteId>,
    pub(crate) spare: usize,
}

/// The ids would be more than `MOST_IDS`. They are as they were.
#[derive(Clone, Copy, Debug, PartialEq, Eq, Error)]
#[error("the ids would be more than a lineage may have")]
pub struct RoomyFull;

impl Model for Roomy {
    ghost use Rattle.std.specs.Prelude.{◌+◌, ◌≤◌, vec_len, vec_capacity};
    ghost use Rattle.anti_ids.specs.Invariants.{IsLineage};
    ghost use Rattle.anti_ids.specs.Roomy.{Roomed};

    ghost Value = { Roomed };

    ghost view = { λ r. record { ids = r.ids.items; spare = r.spare } };

    ghost invariant = { λ r. IsLineage r.ids.items × (vec_len r.ids + r.spare ≤ vec_capacity r.ids) };
}

impl Roomy {
    /// Adds an id of version 1 or later for which there is room, and tells whether it is new.
    pub fn append(&mut self, id: WriteId) -> Result<bool, RoomyFull>
        requires room { length (with_id id self.old.ids) ≤ length self.old.ids + self.old.spare }
        requires written { 1 ≤ id.version }
        ensures ok { IfOk result (λ _. self.new.ids ≡ with_id id self.old.ids) }
        ensures members { (i : WriteId) → OnOk result (has_id i self.new.ids ≡ (is_id i id || has_id i self.old.ids)) }
        ensures new { IfOk result (λ is_new. is_new ≡ not (has_id id self.old.ids)) }
        ensures spare { length self.new.ids + self.new.spare ≡ length self.old.ids + self.old.spare }
        ensures fits { OnOk result (length (with_id id self.old.ids) ≤ MOST_IDS) }
        ensures full { OnErr result (MOST_IDS < length (with_id id self.old.ids)) }
        ensures err { OnErr result (self.new ≡ self.old) }
    {
        let Err(at) = place_of(self.ids.as_slice(), &id) else {
            return Ok(false);
        };
        if self.ids.len() == MOST_IDS {
            return Err(RoomyFull);
        }
        put_at(&mut self.ids, at, id);
        self.spare -= 1;
        Ok(true)
    }

    /// Adds the ids of another lineage, for which there is room: the union of the two.
    pub fn transfer(&mut self, other: &Lineage) -> Result<(), RoomyFull>
        requires { length (with_ids other.now self.old.ids) ≤ length self.old.ids + self.old.spare }
        ensures ok { OnOk result (self.new.ids ≡ with_ids other.now self.old.ids) }
        ensures members { (i : WriteId) → OnOk result (has_id i self.new.ids ≡ (has_id i other.now || has_id i self.old.ids)) }
        ensures spare { length self.new.ids + self.new.spare ≡ length self.old.ids + self.old.spare }
        ensures fits { OnOk result (length (with_ids other.now self.old.ids) ≤ MOST_IDS) }
        ensures full { OnErr result (MOST_IDS < length (with_ids other.now self.old.ids)) }
        ensures err { OnErr result (self.new ≡ self.old) }
    {
        let more = count_new(self.ids.as_slice(), other.iter());
        if more > MOST_IDS - self.ids.len() {
            return Err(RoomyFull);
        }
        add_all(&mut self.ids, other.iter());
        self.spare -= more;
        Ok(())
    }

    /// The lineage of these ids.
    pub fn into_lineage(self) -> Lineage
        ensures { result ≡ self.ids }
    {
        Lineage {
            held: HeldIds::Own(self.ids),
        }
    }
}
