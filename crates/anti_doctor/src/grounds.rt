ghost use Rattle.std.specs.Prelude.{ℕ, ◌≡◌, List, [], ◌∷◌, length, map, option_map, slice_get, All, IfOk, IsTrue, OnOk, true};
ghost use Rattle.std.specs.Option.{option_and_then};
ghost use Rattle.anti_app.specs.declared.app.App.{App};
ghost use Rattle.anti_app.specs.Sound.{is_sound};
ghost use Rattle.anti_trace.specs.Legal.{IsLegalTrace};
ghost use Rattle.law_causal.specs.Reads.{is_at};
ghost use Rattle.law_causal.specs.Words as words;
ghost use Rattle.law_serial.specs.Order.{order_by};
ghost use Rattle.anti_order.specs.Answers.{AreMarksOf};
ghost use Rattle.anti_order.specs.inner.Arranging.{Arranges, IsOver};
ghost use Rattle.anti_doctor.specs.Diagnoses.{IsDiagnosis};
ghost use Rattle.anti_doctor.specs.Missed.{AreMissed, AreMissedAt};
ghost use Rattle.anti_doctor.specs.inner.Findings.{AreGrounds, pair_of, past_by, with_findings};

use crate::causes::causes_of_reads;
use crate::diagnosis::Diagnosis;
use crate::findings::{Found, note_all, told};
use crate::missing::missed_by;
use crate::write_index::{WriteIndex, index_of};
use anti_app::App;
use anti_ids::NoMemory;
use anti_order::{Arranging, Marks, NumberSet, Writes};
use anti_trace::Trace;
use std::alloc::Global;

/// What all diagnoses of a trace rest on, found once for all of them: its writes, their places by their keys, and of each read the numbers
/// of the writes that are causally before it.
#[derive(Drop)]
pub struct Grounds {
    writes: Writes,
    index: WriteIndex,
    sets: Vec<Option<NumberSet>>,
}

// The set that is kept of the entry at a place, where one is.
fn set_at(sets: &[Option<NumberSet>], place: u32) -> Option<&NumberSet>
    ensures { option_map (λ set. set.now) result ≡ option_and_then (λ kept. kept) (slice_get sets.now place) }
{
    sets.get(place as usize)?.as_ref()
}

impl Grounds {
    /// The grounds of a legal trace. The only error is want of memory.
    pub fn of(alloc: Global, app: &App, trace: &Trace) -> Result<Grounds, NoMemory>
        requires sound { IsTrue (is_sound app.now) }
        requires legal { IsLegalTrace app.now trace.now }
        ensures { IfOk result (AreGrounds trace.now) }
    {
        let writes = Writes::of(alloc, app, trace)?;
        let sets = causes_of_reads(alloc, app, trace, &writes)?;
        let index = index_of(alloc, trace)?;
        Ok(Grounds {
            writes,
            index,
            sets,
        })
    }

    // Notes the writes that a read misses most.
    fn note_read(
        &self,
        alloc: Global,
        trace: &Trace,
        found: &mut Found,
        read: u32,
    ) -> Result<(), NoMemory>
        requires legal { (app : App) × IsLegalTrace app trace.now }
        requires grounds { AreGrounds trace.now self.now }
        requires read { is_at (λ e. words.reads e.call) trace.now read ≡ true }
        ensures { OnOk result ((writes : List ℕ) × AreMissedAt trace.now (past_by self.now trace.now) read writes
            × (found.new.entries ≡ with_findings read writes found.old.entries)) }
    {
        let Some(set) = set_at(self.sets.as_slice(), read) else {
            unreachable!() // one is kept of each read
        };
        let missed = missed_by(alloc, trace, &self.writes, &self.index, set, read)?;
        note_all(found, read, missed.as_slice())
    }

    // The writes that some reads miss.
    fn found(&self, alloc: Global, trace: &Trace, reads: &[u32]) -> Result<Found, NoMemory>
        requires legal { (app : App) × IsLegalTrace app trace.now }
        requires grounds { AreGrounds trace.now self.now }
        requires reads { All (λ r. is_at (λ e. words.reads e.call) trace.now r ≡ true) reads.now }
        ensures { IfOk result (λ found. AreMissed trace.now (past_by self.now trace.now) reads.now [] (map pair_of found.entries)) }
    {
        let mut found = Found::new(alloc);
        for read in reads {
            self.note_read(alloc, trace, &mut found, *read)?;
        }
        Ok(found)
    }

    // Adds a read to an order, behind the writes that are causally before it.
    fn add_read(
        &self,
        alloc: Global,
        trace: &Trace,
        arranging: &mut Arranging,
        read: u32,
    ) -> Result<(), NoMemory>
        requires grounds { AreGrounds trace.now self.now }
        requires read { is_at (λ e. words.reads e.call) trace.now read ≡ true }
        requires over { IsOver self.now.writes arranging.old }
        ensures over { OnOk result (IsOver self.now.writes arranging.new) }
        ensures added { (all rest : List ℕ)
            → Arranges trace.now self.now.writes (past_by self.now trace.now) all (read ∷ rest) arranging.old
            → OnOk result (Arranges trace.now self.now.writes (past_by self.now trace.now) all rest arranging.new) }
    {
        let Some(set) = set_at(self.sets.as_slice(), read) else {
            unreachable!() // one is kept of each read
        };
        arranging.add_read(trace, read, set.copied(alloc)?)
    }

    // The order of all writes and some reads, by what is causally before them.
    fn order(&self, alloc: Global, trace: &Trace, reads: &[u32]) -> Result<Marks, NoMemory>
        requires grounds { AreGrounds trace.now self.now }
        requires reads { All (λ r. is_at (λ e. words.reads e.call) trace.now r ≡ true) reads.now }
        ensures { IfOk result (λ order. AreMarksOf trace.now (order_by trace.now (past_by self.now trace.now) reads.now) order.items) }
    {
        let mut arranging = Arranging::new(alloc, &self.writes)?;
        for read in reads {
            self.add_read(alloc, trace, &mut arranging, *read)?;
        }
        arranging.into_marks(&self.writes)
    }

    /// What is found of some reads. The only error is want of memory.
    pub fn diagnosis(
        &self,
        alloc: Global,
        trace: &Trace,
        reads: &[u32],
    ) -> Result<Diagnosis, NoMemory>
        requires legal { (app : App) × IsLegalTrace app trace.now }
        requires grounds { AreGrounds trace.now self.now }
        requires reads { All (λ r. is_at (λ e. words.reads e.call) trace.now r ≡ true) reads.now }
        ensures { IfOk result (IsDiagnosis trace.now reads.now) }
    {
        let found = self.found(alloc, trace, reads)?;
        if found.is_empty() {
            let order = self.order(alloc, trace, reads)?;
            return Ok(Diagnosis::Sound(order));
        }
        let findings = told(alloc, trace, &found)?;
        Ok(Diagnosis::Misses(findings))
    }
}
