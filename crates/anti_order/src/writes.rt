ghost use Rattle.std.specs.Prelude.{◌≡◌, ◌&&◌, ◌==◌, ◌++◌, ℕ, [], ◌∷◌, cond, nat_lt, length, IfOk, IsTrue, OnOk};
ghost use Rattle.std.specs.Option.{option_to_list};
ghost use Rattle.anti_app.specs.Sound.{is_sound};
ghost use Rattle.law_causal.specs.Words.{wrote};
ghost use Rattle.anti_trace.specs.Legal.{IsLegalTrace};
ghost use Rattle.anti_order.specs.inner.Writes.{AddsWrite, AreWritesOf, number_among, number_in, rows_on};

use crate::marks::mark_of;
use anti_app::{App, object_count};
use anti_ids::{Name, NoMemory, WriteId};
use anti_kind::{Call, Entry, Handle, Reply};
use anti_trace::{Mark, Trace};
use std::alloc::Global;

/// A write on a store: its key, and its number among all writes of the trace, counted from 0.
#[derive(Drop)]
pub struct KeyAndNumber {
    key: Name,
    number: usize,
}

/// The writes of a trace: the marks of all, in its order, and those on each object, which have the versions from 1 on.
#[derive(Drop)]
pub struct Writes {
    pub(crate) marks: Handle<Vec<Mark>>,
    stores: Vec<Vec<KeyAndNumber>>,
}

// The writes of the front of a trace.
#[derive(Drop)]
struct Gathered {
    marks: Vec<Mark>,
    stores: Vec<Vec<KeyAndNumber>>,
}

// The id of the write that an entry is; `None` where it is none.
fn id_written(entry: &Entry) -> Option<WriteId>
    ensures { option_to_list result ≡ wrote entry.now }
{
    match (&entry.call, &entry.reply) {
        (Call::Write { .. }, Reply::Written { key, version, .. }) if *version > 0 => Some(
            WriteId {
                store: entry.object,
                key: *key.get(),
                version: *version,
            },
        ),
        _ => None,
    }
}

// No writes, on so many objects.
fn no_writes(alloc: Global, objects: usize) -> Result<Vec<Vec<KeyAndNumber>>, NoMemory>
    ensures count { IfOk result (λ lists. length lists.items ≡ objects) }
    ensures none { (store : ℕ) → IfOk result (λ lists. rows_on lists.items store ≡ []) }
{
    let mut lists = Vec::with_capacity(alloc, objects)?;
    for _object in 0..objects {
        lists.push(Vec::new(alloc))?;
    }
    Ok(lists)
}

// Adds a write behind those of its store.
fn add_row(
    stores: &mut Vec<Vec<KeyAndNumber>>,
    store: usize,
    row: KeyAndNumber,
) -> Result<(), NoMemory>
    ensures count { OnOk result (length stores.new.items ≡ length stores.old.items) }
    ensures rows { (s : ℕ) → OnOk result (rows_on stores.new.items s
        ≡ rows_on stores.old.items s ++ cond ((store == s) && nat_lt s (length stores.old.items)) (row ∷ []) []) }
{
    if store >= stores.len() {
        return Ok(());
    }
    stores[store].push(row)?;
    Ok(())
}

// The writes on a store; none where there is no such store.
fn rows_on(stores: &[Vec<KeyAndNumber>], store: usize) -> &[KeyAndNumber]
    ensures { result.now ≡ rows_on stores.now store }
{
    match stores.get(store) {
        Some(rows) => rows.as_slice(),
        None => &[],
    }
}

// The number of the write with an id, among those on its store.
fn number_among(rows: &[KeyAndNumber], id: &WriteId) -> Option<usize>
    ensures { result ≡ number_among rows.now id.now }
{
    if id.version == 0 {
        return None;
    }
    let row = rows.get((id.version - 1) as usize)?;
    if row.key == id.key {
        return Some(row.number);
    }
    None
}

impl Gathered {
    // Adds the write that an entry is, where it is one.
    fn add(&mut self, entry: &Entry) -> Result<(), NoMemory>
        ensures { OnOk result (AddsWrite entry.now self.old self.new) }
    {
        let Some(id) = id_written(entry) else {
            return Ok(());
        };
        let row = KeyAndNumber {
            key: id.key,
            number: self.marks.len(),
        };
        self.marks.push(mark_of(entry))?;
        add_row(&mut self.stores, id.store as usize, row)?;
        Ok(())
    }
}

impl Writes {
    /// The writes of a legal trace.
    pub fn of(alloc: Global, app: &App, trace: &Trace) -> Result<Writes, NoMemory>
        requires sound { IsTrue (is_sound app.now) }
        requires legal { IsLegalTrace app.now trace.now }
        ensures { IfOk result (AreWritesOf trace.now) }
    {
        let mut gathered = Gathered {
            marks: Vec::new(alloc),
            stores: no_writes(alloc, object_count(app) as usize)?,
        };
        for place in 0..trace.len() {
            gathered.add(trace.at(place))?;
        }
        let Gathered { marks, stores } = gathered;
        let marks = Handle::new(alloc, marks)?;
        Ok(Writes { marks, stores })
    }

    /// How many writes there are.
    pub fn len(&self) -> usize
        ensures { result ≡ length self.now.marks.items }
    {
        self.marks.get().len()
    }

    /// The number of the write of an id.
    pub fn number_of(&self, id: &WriteId) -> Option<usize>
        ensures { result ≡ number_in self.now id.now }
    {
        number_among(rows_on(self.stores.as_slice(), id.store as usize), id)
    }
}
