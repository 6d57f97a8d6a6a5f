ghost use Rattle.std.specs.Prelude.{◌≡◌, ◌<◌, [], IfNone, IfOk, IfSome, OnOk};
ghost use Rattle.std.specs.BinaryHeap.{IsHeap, KeepsHeap, heap_items, heap_len};
ghost use Rattle.anti_trace.specs.inner.Heads.{AreHeads, IsAdded, IsHeadOf, IsRenewed, head_cmp};

use anti_ids::NoMemory;
use anti_kind::History;
use std::alloc::Global;
use std::collections::BinaryHeap;

/// What is said of the last entry of a history: its stamp, its object, and the number of the history. Heads are ordered by
/// (stamp, object), as entries are, and then by the number.
#[derive(Clone, Copy, PartialEq, Eq, PartialOrd, Ord)]
pub struct Head {
    pub stamp: u64,
    pub object: u32,
    pub history: usize,
}

/// The heads of the histories that are not empty, the greatest first.
pub fn heads_of(alloc: Global, histories: &[History]) -> Result<BinaryHeap<Head>, NoMemory>
    ensures order { IfOk result (λ heads. IsHeap head_cmp (heap_items heads)) }
    ensures heads { IfOk result (λ heads. AreHeads histories.now (heap_items heads)) }
{
    let mut heads = BinaryHeap::with_capacity(alloc, histories.len())?;
    for (number, history) in histories.iter().enumerate() {
        add_head(&mut heads, number, history)?;
    }
    Ok(heads)
}

/// Puts the head of a history, as it is now, in place of the first of the heads. Where it is empty, that one goes.
pub fn renew_first(heads: &mut BinaryHeap<Head>, number: usize, history: &History)
    requires { 0 < heap_len heads.old }
    ensures order { KeepsHeap head_cmp (heap_items heads.old) (heap_items heads.new) }
    ensures heads { IsRenewed number history.now.items (heap_items heads.old) (heap_items heads.new) }
{
    match head_of(number, history) {
        Some(head) => {
            if let Some(mut first) = heads.peek_mut() {
                *first = head;
            }
        }
        None => {
            let _ = heads.pop();
        }
    }
}

// Adds the head of the history with this number, where it is not empty.
fn add_head(heads: &mut BinaryHeap<Head>, number: usize, history: &History) -> Result<(), NoMemory>
    ensures order { OnOk result
        (KeepsHeap head_cmp (heap_items heads.old) (heap_items heads.new)) }
    ensures heads { OnOk result
        (IsAdded number history.now.items (heap_items heads.old) (heap_items heads.new)) }
{
    match head_of(number, history) {
        Some(head) => {
            heads.push(head)?;
            Ok(())
        }
        None => Ok(()),
    }
}

// The head of the history with this number, or none where it is empty.
fn head_of(number: usize, history: &History) -> Option<Head>
    ensures none { IfNone result (history.now.items ≡ []) }
    ensures number { IfSome result (λ head. head.history ≡ number) }
    ensures some { IfSome result (IsHeadOf history.now.items) }
{
    match history.as_slice() {
        [] => None,
        [.., last] => Some(Head {
            stamp: last.stamp,
            object: last.object,
            history: number,
        }),
    }
}
