// Keys of cells: c#n for the nth cell of the channel c, where that is a name.
use crate::made::assert_at;
use anti_ids::Name;
use anti_replicas::{Channels, cell_key};
use std::alloc::Global;

// The longest name.
const LONGEST: &[u8] = &[b'c'; 32];

// How many bytes a channel has, the number of a cell, and whether this has a key.
static CELLS: [(usize, u64, bool); 7] = [
    (1, 1, true),
    (11, u64::MAX, true),
    (12, u64::MAX, false),
    (30, 1, true),
    (30, 10, false),
    (31, 1, false),
    (32, 1, false),
];

// The channel of so many bytes. `None` where there is none.
fn channel(length: usize) -> Option<Name> {
    let Some(bytes) = LONGEST.get(..length) else {
        return None;
    };
    Name::new(bytes).ok()
}

// Whether it is so that a cell has a key, and of the first cell that it gets it.
fn is_keyed(alloc: Global, length: usize, number: u64, wanted: bool) -> bool {
    let Some(channel) = channel(length) else {
        return false;
    };
    let is_next = Channels::new(alloc).next_key(&channel).is_some();
    cell_key(&channel, number).is_some() == wanted && (number != 1 || is_next == wanted)
}

#[test]
fn a_key_that_is_no_name_is_none(rt: HostRuntime) {
    for (place, (length, number, wanted)) in CELLS.iter().enumerate() {
        let is_so = is_keyed(rt.alloc(), *length, *number, *wanted);
        assert_at(&rt, place, is_so);
    }
}
