ghost use Rattle.std.specs.Prelude.{◌≡◌, ◌↔◌, ◌+◌, ◌-◌, ◌<◌, ◌≤◌, ◌++◌, ◌^◌, [], length, take, drop, IfNone, IfSome, IsTrue};
ghost use Rattle.std.specs.Iterator.{YieldsFirstRef, item_count};
ghost use Rattle.anti_ids.specs.Each.{Each};
ghost use Rattle.anti_ids.specs.Invariants.{IsAscending, IsLineage};
ghost use Rattle.anti_ids.specs.inner.Parts.{joined};
ghost use Rattle.anti_ids.specs.inner.Places.{IsPlace};
ghost use Rattle.anti_ids.specs.inner.Stores.{Passed, PassedSame, StandFrom};

use crate::id::WriteId;
use crate::id_part::IdPart;
use std::cmp::Ordering;
use std::marker::Model;

// Goes over ids in memory, whether gone or not. It is seen as the list of those that are still to come.
#[derive(Drop)]
pub(crate) struct Walk<'a> {
    // What is left of the part that it stands in, and the parts behind, of which so many ids are left.
    part: &'a [WriteId],
    parts: &'a [IdPart],
    left: usize,
}

impl<'a> Model for Walk<'a> {
    ghost use Rattle.std.specs.Prelude.{List, ◌++◌, take};
    ghost use Rattle.anti_ids.specs.declared.id.WriteId.{WriteId};
    ghost use Rattle.anti_ids.specs.inner.Parts.{joined};

    ghost Value = { List WriteId };

    ghost view = { λ w. w.part.now ++ take w.left (joined w.parts.now) };
}

// The first part, of which so many ids are left at most, and the parts behind it.
fn first_part(parts: &[IdPart], left: usize) -> Option<(&[WriteId], &[IdPart])>
    ensures none { IfNone result (take left (joined parts.now) ≡ []) }
    ensures ids { IfSome result (λ two. two.0.now ++ take (left - length two.0.now) (joined two.1.now) ≡ take left (joined parts.now)) }
    ensures less { IfSome result (λ two. (length two.0.now ≤ left) × (length two.1.now < length parts.now)) }
{
    if left == 0 {
        return None;
    }
    let [first, behind @ ..] = parts else {
        return None;
    };
    let ids = first.ids();
    let (front, _) = ids.split_at(left.min(ids.len()));
    Some((front, behind))
}

// Whether all ids are of stores below a bound.
fn are_below(ids: &[WriteId], bound: u64) -> bool
    requires { IsAscending ids.now }
    ensures { IsTrue result ↔ Each (λ i. i.store < bound) ids.now }
{
    match ids.last() {
        Some(last) => (last.store as u64) < bound,
        None => true,
    }
}

// The ids from the first on that is of no store below a bound.
fn not_below(ids: &[WriteId], bound: u64) -> &[WriteId]
    requires { IsAscending ids.now }
    ensures passed { Passed (λ i. i.store < bound) ids.now result.now (length ids.now - length result.now) }
    ensures high { Each (λ i. bound ≤ i.store) result.now }
{
    let mut rest = ids;
    while let [first, behind @ ..] = rest {
        if first.store as u64 >= bound {
            return rest;
        }
        rest = behind;
    }
    rest
}

// How many ids two lists have in common at their fronts. Not inlined, since its loop then has all registers.
#[inline(never)]
fn same_front(one: &[WriteId], other: &[WriteId]) -> usize
    ensures same { take result one.now ≡ take result other.now }
    ensures within { (result ≤ length one.now) × (result ≤ length other.now) }
{
    let len = one.len().min(other.len());
    let mut at = 0;
    while at < len {
        if one[at] != other[at] {
            return at;
        }
        at += 1;
    }
    at
}

impl<'a> Walk<'a> {
    // Over ids that stand side by side.
    pub(crate) fn over(ids: &'a [WriteId]) -> Walk<'a>
        ensures { result ≡ ids.now }
    {
        Walk {
            part: ids,
            parts: &[],
            left: 0,
        }
    }

    // Over the first ids in parts, so many at most.
    pub(crate) fn through(parts: &'a [IdPart], len: usize) -> Walk<'a>
        ensures { result ≡ take len (joined parts.now) }
    {
        Walk {
            part: &[],
            parts,
            left: len,
        }
    }

    // Leaves out the first ids, so many.
    pub(crate) fn leave_out(&mut self, count: usize)
        ensures { self.new ≡ drop count self.old }
    {
        let mut more = count;
        while self.part.len() < more {
            more -= self.part.len();
            let Some((part, behind)) = first_part(self.parts, self.left) else {
                self.part = &[];
                return;
            };
            self.part = part;
            self.parts = behind;
            self.left -= part.len();
        }
        self.part = self.part.split_at(more).1;
    }

    // Goes past the ids of stores below a bound, and tells how many they are.
    fn pass(&mut self, bound: u64) -> usize
        requires { IsLineage self.old }
        ensures passed { Passed (λ i. i.store < bound) self.old self.new result }
        ensures high { Each (λ i. bound ≤ i.store) self.new }
    {
        let mut count = 0;
        while are_below(self.part, bound) {
            count += self.part.len();
            let Some((part, behind)) = first_part(self.parts, self.left) else {
                self.part = &[];
                return count;
            };
            self.part = part;
            self.parts = behind;
            self.left -= part.len();
        }
        let rest = not_below(self.part, bound);
        count += self.part.len() - rest.len();
        self.part = rest;
        count
    }

    // Takes up the next part that has ids, where none is left of this one.
    fn take_up(&mut self)
        ensures { self.new ≡ self.old }
    {
        while self.part.is_empty() {
            let Some((part, behind)) = first_part(self.parts, self.left) else {
                return;
            };
            self.part = part;
            self.parts = behind;
            self.left -= part.len();
        }
    }

    // Goes past ids that both have at their fronts, as far as the parts go that they stand in, and tells how many they are.
    fn pass_in_parts(&mut self, other: &mut Walk) -> usize
        ensures same { PassedSame self.old self.new other.old other.new }
        ensures count { length self.new + result ≡ length self.old }
    {
        let count = same_front(self.part, other.part);
        self.part = self.part.split_at(count).1;
        other.part = other.part.split_at(count).1;
        count
    }

    // Goes past the ids that both have at their fronts, over the parts that they stand in.
    pub(crate) fn pass_same(&mut self, other: &mut Walk)
        ensures { PassedSame self.old self.new other.old other.new }
    {
        while self.pass_in_parts(other) > 0 {
            self.take_up();
            other.take_up();
        }
    }

    // From which index on how many of the ids are of a store.
    pub(crate) fn range_of(self, store: u32) -> (usize, usize)
        requires { IsLineage self }
        ensures { StandFrom store self.entry result.0 result.1 }
    {
        let mut rest = self;
        let from = rest.pass(store as u64);
        let len = rest.pass(store as u64 + 1);
        (from, len)
    }

    // Where an id stands, or where it goes as it is not there. It goes along.
    pub(crate) fn place_of(self, id: &WriteId) -> Result<usize, usize>
        requires ascending { IsAscending self }
        requires short { length self < 2 ^ 64 }
        ensures { IsPlace id.now self.entry result }
    {
        let mut at = 0;
        for other in self {
            match other.cmp(id) {
                Ordering::Less => at += 1,
                Ordering::Equal => return Ok(at),
                Ordering::Greater => return Err(at),
            }
        }
        Err(at)
    }
}

impl<'a> Iterator for Walk<'a> {
    type Item = &'a WriteId;

    ghost next_gives = { YieldsFirstRef (λ ids. ids) };

    ghost remaining = { item_count (λ ids. ids) };

    fn next(&mut self) -> Option<&'a WriteId> {
        while self.part.is_empty() {
            let Some((part, behind)) = first_part(self.parts, self.left) else {
                return None;
            };
            self.part = part;
            self.parts = behind;
            self.left -= part.len();
        }
        let [first, behind @ ..] = self.part else {
            return None;
        };
        self.part = behind;
        Some(first)
    }
}
