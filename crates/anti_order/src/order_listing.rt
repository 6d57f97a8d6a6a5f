ghost use Rattle.std.specs.Prelude.{ℕ, Bool, ◌≡◌, ◌<◌, ◌^◌, ◌&&◌, [], ◌∷◌, List, not, true, length, All, IfOk, OnOk};
ghost use Rattle.anti_kind.specs.declared.entry.Entry.{Entry};
ghost use Rattle.anti_app.specs.declared.app.App.{App};
ghost use Rattle.anti_trace.specs.declared.mark.Mark.{Mark as OneMark};
ghost use Rattle.law_causal.specs.Reads.{is_at};
ghost use Rattle.law_causal.specs.Words as words;
ghost use Rattle.anti_past.specs.Pasts.{ArePastsOf};
ghost use Rattle.law_serial.specs.Order.{order_by, order_of, writes_at};
ghost use Rattle.anti_order.specs.Answers.{AreMarksOf};
ghost use Rattle.anti_order.specs.declared.writes.Writes.{Writes as AllWrites};
ghost use Rattle.anti_order.specs.inner.Arranging.{Arranges, IsOver};
ghost use Rattle.anti_order.specs.inner.NumberSets.{has, room};
ghost use Rattle.anti_order.specs.inner.Pieces.{AddsRuns};
ghost use Rattle.anti_order.specs.inner.Writes.{AreWritesOf, number_at};

use crate::marks::mark_at;
use crate::number_set::NumberSet;
use crate::past_writes::past_writes;
use crate::pieces::{Marks, Piece};
use crate::writes::Writes;
use anti_ids::NoMemory;
use anti_past::Past;
use anti_trace::Trace;
use std::alloc::Global;

/// An order of all writes of a trace and some reads in the making: its pieces, and the numbers of the writes that do not stand in it.
#[derive(Drop)]
pub struct Arranging {
    pieces: Vec<Piece>,
    left: NumberSet,
}

// Adds the writes with some numbers at the end, run by run.
fn add_runs(pieces: &mut Vec<Piece>, numbers: &NumberSet) -> Result<(), NoMemory>
    ensures { (writes : List OneMark) → ((n : ℕ) → has numbers.now n ≡ true → n < length writes)
        → OnOk result (AddsRuns writes (has numbers.now) pieces.old.items pieces.new.items) }
{
    let mut from = 0;
    while let Some(found) = numbers.run_from(from) {
        pieces.push(Piece::Writes {
            from: found.from,
            to: found.to,
        })?;
        from = found.to;
    }
    Ok(())
}

impl Arranging {
    /// The order in which nothing stands yet. The only error is want of memory.
    pub fn new(alloc: Global, writes: &Writes) -> Result<Arranging, NoMemory>
        requires { length writes.now.marks.items < 2 ^ 32 }
        ensures over { IfOk result (IsOver writes.now) }
        ensures arranges { (trace : List Entry) → AreWritesOf trace writes.now → (past : ℕ → ℕ → Bool) (reads : List ℕ)
            → IfOk result (Arranges trace writes.now past reads reads) }
    {
        let left = NumberSet::all(alloc, writes.len())?;
        Ok(Arranging {
            pieces: Vec::new(alloc),
            left,
        })
    }

    // Adds those of the writes with some numbers that do not stand in the order.
    fn add_writes(&mut self, mut numbers: NumberSet) -> Result<(), NoMemory>
        requires { room numbers ≡ room self.old.left }
        ensures left { (n : ℕ) → OnOk result (has self.new.left n ≡ (has self.old.left n && not (has numbers n))) }
        ensures room { OnOk result (room self.new.left ≡ room self.old.left) }
        ensures pieces { (writes : List OneMark) → ((n : ℕ) → has self.old.left n ≡ true → n < length writes)
            → OnOk result (AddsRuns writes (λ n. has numbers n && has self.old.left n) self.old.pieces.items self.new.pieces.items) }
    {
        numbers.keep(&self.left);
        self.left.remove(&numbers);
        add_runs(&mut self.pieces, &numbers)?;
        Ok(())
    }

    /// Adds a read, behind those writes of its past that do not stand in the order; `numbers` has the numbers of the writes of its past.
    /// The only error is want of memory.
    pub fn add_read(&mut self, trace: &Trace, read: u32, numbers: NumberSet) -> Result<(), NoMemory>
        requires read { read < length trace.now }
        requires room { room numbers ≡ room self.old.left }
        ensures over { (writes : AllWrites) → IsOver writes self.old → OnOk result (IsOver writes self.new) }
        ensures added { (writes : AllWrites) (past : ℕ → ℕ → Bool) (all rest : List ℕ) → AreWritesOf trace.now writes
            → Arranges trace.now writes past all (read ∷ rest) self.old
            → ((i : ℕ) → writes_at trace.now i ≡ true → has numbers (number_at trace.now i) ≡ past read i)
            → OnOk result (Arranges trace.now writes past all rest self.new) }
    {
        self.add_writes(numbers)?;
        self.pieces.push(Piece::Alone(mark_at(trace, read)))?;
        Ok(())
    }

    /// The marks of the order, behind whose reads come all writes that do not stand in it yet. The only error is want of memory.
    pub fn into_marks(self, writes: &Writes) -> Result<Marks, NoMemory>
        requires { IsOver writes.now self }
        ensures { (trace : List Entry) (past : ℕ → ℕ → Bool) (all : List ℕ) → AreWritesOf trace writes.now
            → Arranges trace writes.now past all [] self
            → IfOk result (λ order. AreMarksOf trace (order_by trace past all) order.items) }
    {
        let Arranging { mut pieces, left } = self;
        add_runs(&mut pieces, &left)?;
        Ok(Marks::over(writes.marks.share()?, pieces))
    }
}

/// The marks of all writes and these reads, in the order that explains the reads. The only error is want of memory.
pub fn arranged(
    alloc: Global,
    trace: &Trace,
    writes: &Writes,
    pasts: &[Option<Past>],
    reads: &[u32],
) -> Result<Marks, NoMemory>
    requires writes { AreWritesOf trace.now writes.now }
    requires reads { All (λ r. is_at (λ e. words.reads e.call) trace.now r ≡ true) reads.now }
    ensures { (app : App) → ArePastsOf app trace.now pasts.now
        → IfOk result (λ order. AreMarksOf trace.now (order_of app trace.now reads.now) order.items) }
{
    let mut arranging = Arranging::new(alloc, writes)?;
    for read in reads {
        let past = past_writes(alloc, trace, writes, pasts, *read)?;
        arranging.add_read(trace, *read, past)?;
    }
    arranging.into_marks(writes)
}
