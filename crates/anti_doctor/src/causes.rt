ghost use Rattle.std.specs.Prelude.{ℕ, ◌≡◌, ◌<◌, ◌^◌, [], cond, length, IfOk, IsTrue, OnOk, None, Some, slice_get};
ghost use Rattle.std.specs.BTreeMap.{get};
ghost use Rattle.anti_app.specs.Sound.{is_sound};
ghost use Rattle.anti_proc.specs.Local.{id_at};
ghost use Rattle.anti_trace.specs.Legal.{IsLegalTrace};
ghost use Rattle.law_causal.specs.Words.{reads, shown};
ghost use Rattle.law_causal.specs.inner.Taken.{told};
ghost use Rattle.anti_order.specs.inner.NumberSets.{has, room, room_for};
ghost use Rattle.anti_order.specs.inner.Writes.{AreWritesOf};
ghost use Rattle.anti_doctor.specs.declared.passages.Passage.{Passage};
ghost use Rattle.anti_doctor.specs.inner.Causes.{AreCausesOf};
ghost use Rattle.anti_doctor.specs.inner.Gathered.{AreClosed, IsReady, Joins, Keeps, Notes, Passes, draws, has_in, has_kept, has_passed, have_kept, ids_of_rows};
ghost use Rattle.anti_doctor.specs.inner.Passages.{passage_cmp};

use crate::passages::{Passage, is_write, posted_of, span_of, taken_of};
use anti_app::App;
use anti_ids::{Lineage, NoMemory, WriteId};
use anti_kind::{Call, Entry, Reply, Row};
use anti_order::{NumberSet, Writes};
use anti_past::reads;
use anti_trace::Trace;
use std::alloc::Global;
use std::collections::BTreeMap;

/// What is causally before the entries of the front of a trace: of each write there, by its number, the numbers of the writes before it
/// with its own; and of each passage those of the writes that came by it.
#[derive(Drop)]
pub struct Causes {
    kept: Vec<NumberSet>,
    passed: BTreeMap<Passage, NumberSet>,
}

impl Causes {
    // Nothing is before the first entry.
    fn new(alloc: Global) -> Causes
        ensures kept { result.kept.items ≡ [] }
        ensures passed { (q : Passage) → get passage_cmp result.passed q ≡ None }
    {
        Causes {
            kept: Vec::new(alloc),
            passed: BTreeMap::new(alloc),
        }
    }

    // ---- what an entry draws

    // Adds what came by a passage to a set.
    fn add_passed(&self, set: &mut NumberSet, passage: Option<Passage>)
        requires { IsReady self.now set.old }
        ensures { Joins self.now.kept.items (has_passed self.now passage) set.old set.new }
    {
        let Some(passage) = passage else {
            return;
        };
        let Some(its) = self.passed.get(&passage) else {
            return;
        };
        set.join(its);
    }

    // Adds the write of a number and what is before it. Where the write is in the set, all that is in it already.
    fn add_numbered(&self, set: &mut NumberSet, number: usize)
        requires { IsReady self.now set.old }
        ensures { Joins self.now.kept.items (has_in (slice_get self.now.kept.items number)) set.old set.new }
    {
        if set.contains(number) {
            return;
        }
        let Some(its) = self.kept.get(number) else {
            return;
        };
        set.join(its);
    }

    // Adds the write of an id and what is before it.
    fn add_write(&self, set: &mut NumberSet, writes: &Writes, id: &WriteId)
        requires { IsReady self.now set.old }
        ensures { Joins self.now.kept.items (λ n. has_kept self.now writes.now n id.now) set.old set.new }
    {
        let Some(number) = writes.number_of(id) else {
            return;
        };
        self.add_numbered(set, number);
    }

    // The same of each id of a lineage.
    fn add_lineage(&self, set: &mut NumberSet, writes: &Writes, lineage: &Lineage)
        requires { IsReady self.now set.old }
        ensures { Joins self.now.kept.items (have_kept self.now writes.now lineage.now) set.old set.new }
    {
        for id in lineage.iter() {
            self.add_write(set, writes, id);
        }
    }

    // The same of the version that a row of a store shows; version 0 has no write. What is in the lineage beside a row is before its write.
    fn add_row(&self, set: &mut NumberSet, writes: &Writes, store: u32, row: &Row)
        requires { IsReady self.now set.old }
        ensures { Joins self.now.kept.items (have_kept self.now writes.now (id_at store row.now.key row.now.version)) set.old set.new }
    {
        if row.version == 0 {
            return;
        }
        let id = WriteId {
            store,
            key: row.key,
            version: row.version,
        };
        self.add_write(set, writes, &id);
    }

    // The same of rows.
    fn add_rows(&self, set: &mut NumberSet, writes: &Writes, store: u32, rows: &[Row])
        requires { IsReady self.now set.old }
        ensures { Joins self.now.kept.items (have_kept self.now writes.now (ids_of_rows store rows.now)) set.old set.new }
    {
        for row in rows {
            self.add_row(set, writes, store, row);
        }
    }

    // The same of the rows that an entry shows.
    fn add_shown(&self, set: &mut NumberSet, writes: &Writes, entry: &Entry)
        requires { IsReady self.now set.old }
        ensures { Joins self.now.kept.items (have_kept self.now writes.now (shown entry.now)) set.old set.new }
    {
        let store = entry.object;
        match (&entry.call, &entry.reply) {
            (Call::Read { .. }, Reply::Shown(rows)) => {
                self.add_rows(set, writes, store, rows.as_slice());
            }
            (Call::Scan { .. }, Reply::Shown(rows)) => {
                self.add_rows(set, writes, store, rows.as_slice());
            }
            (Call::Poll { .. }, Reply::Shown(rows)) => {
                self.add_rows(set, writes, store, rows.as_slice());
            }
            (Call::Pull { .. }, Reply::Pulled(row)) => {
                self.add_row(set, writes, store, row.get());
            }
            (Call::Repull { .. }, Reply::Pulled(row)) => {
                self.add_row(set, writes, store, row.get());
            }
            _ => {}
        }
    }

    // The same of the lineage that the reply to a write tells is kept beside it. Where it tells none, that is the one that was handed in,
    // all of which came to the span.
    fn add_told(&self, set: &mut NumberSet, writes: &Writes, entry: &Entry)
        requires { IsReady self.now set.old }
        ensures { Joins self.now.kept.items (have_kept self.now writes.now (told entry.now)) set.old set.new }
    {
        match (&entry.call, &entry.reply) {
            (
                Call::Write { .. },
                Reply::Written {
                    over: Some(kept),
                    ..
                },
            ) => {
                self.add_lineage(set, writes, kept.get());
            }
            _ => {}
        }
    }

    // The numbers of the writes that are causally before an entry.
    fn drawn(&self, alloc: Global, writes: &Writes, entry: &Entry) -> Result<NumberSet, NoMemory>
        requires sets { AreClosed (room_for (length writes.now.marks.items)) self.now }
        requires few { length writes.now.marks.items < 2 ^ 32 }
        ensures room { IfOk result (λ set. room set ≡ room_for (length writes.now.marks.items)) }
        ensures closed { IfOk result (IsReady self.now) }
        ensures drawn { (n : ℕ) → IfOk result (λ set. has set n ≡ draws self.now writes.now entry.now n) }
    {
        let mut set = NumberSet::none(alloc, writes.len())?;
        self.add_passed(&mut set, span_of(entry));
        self.add_passed(&mut set, taken_of(entry));
        self.add_shown(&mut set, writes, entry);
        self.add_told(&mut set, writes, entry);
        Ok(set)
    }

    // ---- what an entry hands on

    // Begins with what comes by a passage for the first time.
    fn begin(&mut self, alloc: Global, passage: Passage, set: &NumberSet) -> Result<(), NoMemory>
        requires none { get passage_cmp self.old.passed passage ≡ None }
        requires ready { IsReady self.old set.now }
        ensures { OnOk result (Passes (Some passage) set.now self.old self.new) }
    {
        let its = set.copied(alloc)?;
        match self.passed.insert(passage, its) {
            Ok(_) => Ok(()),
            Err(_) => Err(NoMemory),
        }
    }

    // Hands a set on by a passage.
    fn pass(
        &mut self,
        alloc: Global,
        passage: Option<Passage>,
        set: &NumberSet,
    ) -> Result<(), NoMemory>
        requires { IsReady self.old set.now }
        ensures { OnOk result (Passes passage set.now self.old self.new) }
    {
        let Some(passage) = passage else {
            return Ok(());
        };
        match self.passed.get_mut(&passage) {
            Some(its) => {
                its.join(set);
                Ok(())
            }
            None => self.begin(alloc, passage, set),
        }
    }

    // Adds the number of the write that an entry is, where it is one, to the set of what is before it, and keeps that.
    fn keep(&mut self, alloc: Global, entry: &Entry, set: &mut NumberSet) -> Result<(), NoMemory>
        requires ready { IsReady self.old set.old }
        requires low { length self.old.kept.items < room set.old }
        ensures { OnOk result (Keeps entry.now set.old set.new self.old self.new) }
    {
        if !is_write(entry) {
            return Ok(());
        }
        set.insert(self.kept.len());
        let own = set.copied(alloc)?;
        self.kept.push(own)?;
        Ok(())
    }

    // Notes what is before an entry.
    fn note(&mut self, alloc: Global, entry: &Entry, set: NumberSet) -> Result<(), NoMemory>
        requires ready { IsReady self.old set }
        requires low { length self.old.kept.items < room set }
        ensures { OnOk result (Notes entry.now set self.old self.new) }
    {
        let mut set = set;
        self.keep(alloc, entry, &mut set)?;
        self.pass(alloc, span_of(entry), &set)?;
        self.pass(alloc, posted_of(entry), &set)?;
        Ok(())
    }
}

// What is kept of an entry: of a read a copy of the set of what is before it, of another nothing.
fn kept_of(alloc: Global, entry: &Entry, set: &NumberSet) -> Result<Option<NumberSet>, NoMemory>
    ensures { IfOk result (λ kept. kept ≡ cond (reads entry.now.call) (Some set.now) None) }
{
    if !reads(&entry.call) {
        return Ok(None);
    }
    let copy = set.copied(alloc)?;
    Ok(Some(copy))
}

/// Of each read of a trace the numbers of the writes that are causally before it, and of another entry nothing, by the places of the
/// entries. The trace is one of the application, which only the contract asks for. The only error is want of memory.
pub fn causes_of_reads(
    alloc: Global,
    _app: &App,
    trace: &Trace,
    writes: &Writes,
) -> Result<Vec<Option<NumberSet>>, NoMemory>
    requires sound { IsTrue (is_sound _app.now) }
    requires legal { IsLegalTrace _app.now trace.now }
    requires writes { AreWritesOf trace.now writes.now }
    ensures { IfOk result (λ sets. AreCausesOf trace.now sets.items) }
{
    let mut causes = Causes::new(alloc);
    let mut sets = Vec::new(alloc);
    for place in 0..trace.len() {
        let entry = trace.at(place);
        let set = causes.drawn(alloc, writes, entry)?;
        let kept = kept_of(alloc, entry, &set)?;
        sets.push(kept)?;
        causes.note(alloc, entry, set)?;
    }
    Ok(sets)
}
