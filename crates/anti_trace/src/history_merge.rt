ghost use Rattle.std.specs.Prelude.{ℕ, ◌≡◌, ◌<◌, ◌^◌, length, IfOk};
ghost use Rattle.anti_trace.specs.Traces.{IsTrace, entries_on};
ghost use Rattle.anti_trace.specs.Histories.{AreHistories, all_entries};

use crate::heads::{heads_of, renew_first};
use crate::trace::Trace;
use anti_ids::{List, NoMemory};
use anti_kind::History;
use std::alloc::Global;
use std::collections::VecDeque;

/// The histories of objects, each of one object and no two of the same.
pub type Histories = List<History>;

/// The trace that has on each object just the entries of its history. The stamps of each history ascend.
///
/// It is made from its end: a heap finds the history whose last entry comes last, so the time is that of the entries times the
/// logarithm of the number of histories. Each entry is moved once, and none is copied.
pub fn merge(alloc: Global, histories: Histories) -> Result<Trace, NoMemory>
    requires own { AreHistories histories.items }
    requires few { length (all_entries histories.items) < 2 ^ 32 }
    ensures entries { IfOk result (λ t. (o : ℕ) → entries_on o t
        ≡ entries_on o (all_entries histories.items)) }
    ensures order { IfOk result IsTrace }
{
    let mut left = taken_apart(alloc, histories)?;
    let mut heads = heads_of(alloc, left.as_slice())?;
    let mut entries = VecDeque::with_capacity(alloc, entry_count(left.as_slice()))?;
    while let Some(first) = heads.peek() {
        let number = first.history;
        let history = &mut left[number];
        match history.pop() {
            Some(entry) => entries.push_front_reserved(entry),
            // only a history that is not empty has a head
            None => unreachable!(),
        }
        renew_first(&mut heads, number, history);
    }
    Ok(Trace::of(entries.into_vec()))
}

// The histories, so that each can be taken from.
fn taken_apart(alloc: Global, mut histories: Histories) -> Result<Vec<History>, NoMemory>
    ensures { IfOk result (λ v. v.items ≡ histories.items) }
{
    let mut left = Vec::new(alloc);
    while let Some(history) = histories.pop() {
        left.push(history)?;
    }
    left.reverse();
    Ok(left)
}

// The number of the entries of all.
fn entry_count(histories: &[History]) -> usize
    requires { length (all_entries histories.now) < 2 ^ 32 }
    ensures { result ≡ length (all_entries histories.now) }
{
    let mut count = 0;
    for history in histories {
        count += history.len();
    }
    count
}
