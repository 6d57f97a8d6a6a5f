ghost use Rattle.std.specs.Prelude.{◌≡◌, ◌+◌, ◌≤◌, length};
ghost use Rattle.std.specs.Iterator.{YieldsFirstRef, item_count};
ghost use Rattle.anti_ids.specs.inner.Left.{AreMarked, left_for};
ghost use Rattle.anti_ids.specs.inner.Stores.{PassedSame};

use crate::id::WriteId;
use crate::limits::MOST_IDS;
use crate::marks::is_gone;
use crate::walk::Walk;
use std::marker::Model;

/// Goes over the ids of a lineage in ascending order. It is seen as the list of those that are left.
#[derive(Drop)]
pub struct Ids<'a> {
    // What stands in memory, and the index there of the first.
    walk: Walk<'a>,
    at: usize,
    // Which of all these are gone, where some may be.
    gone: Option<&'a [u64]>,
}

impl<'a> Model for Ids<'a> {
    ghost use Rattle.std.specs.Prelude.{List, ◌+◌, ◌≤◌, length};
    ghost use Rattle.anti_ids.specs.declared.id.WriteId.{WriteId};
    ghost use Rattle.anti_ids.specs.declared.limits.TheConstants.{MOST_IDS};
    ghost use Rattle.anti_ids.specs.inner.Left.{AreMarked, left_for};

    ghost Value = { List WriteId };

    ghost view = { λ ids. left_for ids.gone ids.at ids.walk };

    ghost invariant = { λ ids. (ids.at + length ids.walk ≤ MOST_IDS) × AreMarked ids.gone (ids.at + length ids.walk) };
}

impl<'a> Ids<'a> {
    // Over the ids in memory that are not gone, of which the first stands at an index.
    pub(crate) fn over(walk: Walk<'a>, at: usize, gone: Option<&'a [u64]>) -> Ids<'a>
        requires few { at + length walk ≤ MOST_IDS }
        requires marked { AreMarked gone (at + length walk) }
        ensures { result ≡ left_for gone.entry at walk.entry }
    {
        Ids { walk, at, gone }
    }

    // Goes past ids that both have at their fronts, as far as they stand side by side in memory, where none may be gone.
    pub(crate) fn pass_same(&mut self, other: &mut Ids)
        ensures { PassedSame self.old self.new other.old other.new }
    {
        if self.gone.is_none() && other.gone.is_none() {
            self.walk.pass_same(&mut other.walk);
        }
    }
}

impl<'a> Iterator for Ids<'a> {
    type Item = &'a WriteId;

    ghost next_gives = { YieldsFirstRef (λ ids. ids) };

    ghost remaining = { item_count (λ ids. ids) };

    fn next(&mut self) -> Option<&'a WriteId> {
        let Some(gone) = self.gone else {
            return self.walk.next();
        };
        while let Some(id) = self.walk.next() {
            let is_gone = is_gone(gone, self.at);
            self.at += 1;
            if !is_gone {
                return Some(id);
            }
        }
        None
    }
}
