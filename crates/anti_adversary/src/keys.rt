use anti_ids::{Name, NoMemory};
use anti_kind::{Call, Entry, Reply};
use anti_trace::Trace;
use std::alloc::Global;

/// A write of a run.
#[derive(Clone, Copy)]
pub(crate) struct Written {
    pub store: u32,
    pub key: Name,
    pub version: u64,
}

/// The write that an entry makes.
pub(crate) fn write_of(entry: &Entry) -> Option<Written> {
    match (&entry.call, &entry.reply) {
        (Call::Write { key, .. }, Reply::Written { version, .. }) => Some(Written {
            store: entry.object,
            key: *key.get(),
            version: *version,
        }),
        _ => None,
    }
}

/// The first writes of a run, so many at most.
pub(crate) fn first_writes(
    alloc: Global,
    trace: &Trace,
    most: usize,
) -> Result<Vec<Written>, NoMemory> {
    let mut writes = Vec::new(alloc);
    for entry in trace.as_slice() {
        if let Some(write) = write_of(entry) {
            if writes.len() < most {
                writes.push(write)?;
            }
        }
    }
    Ok(writes)
}

/// The first writes to each key of each store, so many at most.
pub(crate) fn first_keys(
    alloc: Global,
    trace: &Trace,
    most: usize,
) -> Result<Vec<Written>, NoMemory> {
    let mut keys = Vec::new(alloc);
    for entry in trace.as_slice() {
        if let Some(write) = write_of(entry) {
            if keys.len() < most && !has_key(keys.as_slice(), &write) {
                keys.push(write)?;
            }
        }
    }
    Ok(keys)
}

// Whether the key of a write is among these.
fn has_key(keys: &[Written], write: &Written) -> bool {
    keys.iter()
        .any(|it| it.store == write.store && it.key == write.key)
}
