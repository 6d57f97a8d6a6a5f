// What is left of a block for one of its owners, whose marks say which of its ids are gone.
ghost use Rattle.std.specs.Prelude.{◌≡◌, ℕ, ◌+◌, ◌*◌, ◌<◌, ◌≤◌, List, true, false, not, length, slice_get, take, drop, IfOk, IsTrue};
ghost use Rattle.anti_ids.specs.declared.id.WriteId.{WriteId};
ghost use Rattle.anti_ids.specs.Invariants.{IsAscending};
ghost use Rattle.anti_ids.specs.Ids.{has_id, with_id, without_id};
ghost use Rattle.anti_ids.specs.inner.Left.{AreMarked, is_gone, left_for, left_of};

use crate::block::Block;
use crate::id::WriteId;
use crate::ids::Ids;
use crate::limits::MOST_IDS;
use crate::marks::{count_gone, is_any_gone, is_gone, mark, unmark};
use crate::memory::NoMemory;
use std::alloc::AllocError;

// The marks, where any id is gone by them.
pub(crate) fn gone_by(words: &[u64]) -> Option<&[u64]>
    ensures left { (at : ℕ) → (ids : List WriteId) → left_for result at ids ≡ left_of words.now at ids }
    ensures marked { (len : ℕ) → len ≤ 64 * length words.now → AreMarked result len }
{
    if is_any_gone(words) {
        return Some(words);
    }
    None
}

// How many ids are left.
pub(crate) fn left_len(block: &Block, words: &[u64]) -> usize
    requires few { length block.now ≤ MOST_IDS }
    requires marked { length block.now ≤ 64 * length words.now }
    ensures { result ≡ length (left_of words.now 0 block.now) }
{
    let len = block.len();
    if is_any_gone(words) {
        return len - count_gone(words, len);
    }
    len
}

// The id at an index of those that are left.
pub(crate) fn left_at(block: &Block, words: &[u64], index: usize) -> WriteId
    requires few { length block.now ≤ MOST_IDS }
    requires marked { length block.now ≤ 64 * length words.now }
    requires within { index < length (left_of words.now 0 block.now) }
    ensures { slice_get (left_of words.now 0 block.now) index ≡ Some result }
{
    if is_any_gone(words) {
        return nth(Ids::over(block.walk(), 0, Some(words)), index);
    }
    block.at(index)
}

// The id at an index of those that are to come.
fn nth(ids: Ids, index: usize) -> WriteId
    requires { index < length ids }
    ensures { slice_get ids.entry index ≡ Some result }
{
    let mut before = index;
    for id in ids {
        if before == 0 {
            return *id;
        }
        before -= 1;
    }
    unreachable!() // the index is below their number
}

// Whether an id is left.
pub(crate) fn is_left(block: &Block, words: &[u64], id: &WriteId) -> bool
    requires ascending { IsAscending block.now }
    requires marked { length block.now ≤ 64 * length words.now }
    ensures { result ≡ has_id id.now (left_of words.now 0 block.now) }
{
    match block.place_of(id) {
        Ok(at) => !is_gone(words, at),
        Err(_) => false,
    }
}

// Those that are left of a range of a block, in a block of which none is gone. Where none is gone of all, it takes no memory.
pub(crate) fn left_range(
    block: &Block,
    words: &[u64],
    from: usize,
    len: usize,
) -> Result<Block, NoMemory>
    requires few { length block.now ≤ MOST_IDS }
    requires marked { length block.now ≤ 64 * length words.now }
    requires within { from + len ≤ length block.now }
    ensures { IfOk result (λ b. b ≡ left_of words.now from (take len (drop from block.now))) }
{
    let range = block.range(from, len)?;
    if is_any_gone(words) {
        return apart(&range, words, from);
    }
    Ok(range)
}

// The ids that are left of a block, the first of which stands at an index of those that are marked, in a block of their own.
fn apart(block: &Block, words: &[u64], at: usize) -> Result<Block, NoMemory>
    requires few { at + length block.now ≤ MOST_IDS }
    requires marked { at + length block.now ≤ 64 * length words.now }
    ensures { IfOk result (λ b. b ≡ left_of words.now at block.now) }
{
    let alloc = block.allocator();
    let ids: Result<Vec<WriteId>, AllocError> = Ids::over(block.walk(), at, Some(words))
        .copied()
        .collect(alloc);
    match ids {
        Ok(ids) => Block::of(alloc, ids.as_slice()),
        Err(_) => Err(NoMemory),
    }
}

// Marks an id as gone, and tells whether it was left.
pub(crate) fn take_from(block: &Block, words: &mut [u64], id: &WriteId) -> bool
    requires ascending { IsAscending block.now }
    requires marked { length block.now ≤ 64 * length words.old }
    ensures ids { left_of words.new 0 block.now ≡ without_id id.now (left_of words.old 0 block.now) }
    ensures found { result ≡ has_id id.now (left_of words.old 0 block.now) }
    ensures marked { length words.new ≡ length words.old }
{
    let Ok(at) = block.place_of(id) else {
        return false;
    };
    if is_gone(words, at) {
        return false;
    }
    mark(words, at);
    true
}

// Marks an id as gone no more, and tells whether it was there and gone.
pub(crate) fn bring_back_to(block: &Block, words: &mut [u64], id: &WriteId) -> bool
    requires ascending { IsAscending block.now }
    requires marked { length block.now ≤ 64 * length words.old }
    ensures ids { IsTrue result → left_of words.new 0 block.now ≡ with_id id.now (left_of words.old 0 block.now) }
    ensures new { IsTrue result → has_id id.now (left_of words.old 0 block.now) ≡ false }
    ensures same { result ≡ false → words.new ≡ words.old }
    ensures marked { length words.new ≡ length words.old }
{
    let Ok(at) = block.place_of(id) else {
        return false;
    };
    if !is_gone(words, at) {
        return false;
    }
    unmark(words, at);
    true
}

// Whether an id can be added to the block itself: all are left, and one more has a mark.
pub(crate) fn may_grow(block: &Block, words: &[u64]) -> bool
    ensures room { IsTrue result → length block.now < 64 * length words.now }
    ensures all { IsTrue result → (at : ℕ) → is_gone words.now at ≡ false }
{
    block.len() / 64 < words.len() && !is_any_gone(words)
}
