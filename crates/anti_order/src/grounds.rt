ghost use Rattle.std.specs.Prelude.{◌≡◌, ◌<◌, length, All, IfOk, IsTrue, not, true};
ghost use Rattle.std.specs.List.{find};
ghost use Rattle.anti_app.specs.declared.app.App.{App};
ghost use Rattle.anti_app.specs.Sound.{is_sound};
ghost use Rattle.law_causal.specs.Carried.{IsLossless};
ghost use Rattle.law_causal.specs.Reads.{is_at};
ghost use Rattle.law_causal.specs.Words as words;
ghost use Rattle.anti_trace.specs.Legal.{IsLegalTrace};
ghost use Rattle.anti_trace.specs.inner.Trails.{IsTrailIfKept};
ghost use Rattle.anti_past.specs.Pasts.{ArePastsOf};
ghost use Rattle.anti_order.specs.Answers.{IsAnswer};
ghost use Rattle.anti_order.specs.inner.Grounds.{AreGroundsOf, is_settled_at};
ghost use Rattle.anti_order.specs.inner.Writes.{AreWritesOf};

use crate::answer::OrderAnswer;
use crate::marks::mark_at;
use crate::order_listing::arranged;
use crate::writes::Writes;
use anti_app::App;
use anti_ids::NoMemory;
use anti_past::{Course, Past};
use anti_trace::{Mark, Trace, Trail};
use std::alloc::Global;

/// What all answers of reads of a trace rest on, found once for all of them.
#[derive(Drop)]
pub enum Grounds {
    /// The first entry that loses an id.
    Loss(Mark),
    /// No entry loses one: the pasts of the reads, and the writes.
    NoLoss {
        pasts: Vec<Option<Past>>,
        writes: Writes,
    },
}

// Whether the read at a place is settled.
fn is_settled(pasts: &[Option<Past>], read: u32) -> bool
    requires { read < length pasts.now }
    ensures { result ≡ is_settled_at pasts.now read }
{
    match &pasts[read as usize] {
        Some(past) => past.settled,
        None => false,
    }
}

/// The first of some reads that is not settled.
pub fn first_unsettled(pasts: &[Option<Past>], reads: &[u32]) -> Option<u32>
    requires { All (λ r. r < length pasts.now) reads.now }
    ensures { result ≡ find (λ r. not (is_settled_at pasts.now r)) reads.now }
{
    for read in reads {
        if !is_settled(pasts, *read) {
            return Some(*read);
        }
    }
    None
}

// What is answered of reads of a trace that loses no id.
fn answer_lossless(
    alloc: Global,
    trace: &Trace,
    pasts: &[Option<Past>],
    writes: &Writes,
    reads: &[u32],
) -> Result<OrderAnswer, NoMemory>
    requires pasts { (app : App) × ArePastsOf app trace.now pasts.now }
    requires writes { AreWritesOf trace.now writes.now }
    requires reads { All (λ r. is_at (λ e. words.reads e.call) trace.now r ≡ true) reads.now }
    ensures { (app : App) → IsLossless app trace.now → ArePastsOf app trace.now pasts.now
        → IfOk result (IsAnswer app trace.now reads.now) }
{
    if let Some(read) = first_unsettled(pasts, reads) {
        return Ok(OrderAnswer::Unguarded(mark_at(trace, read)));
    }
    let order = arranged(alloc, trace, writes, pasts, reads)?;
    Ok(OrderAnswer::Order(order))
}

impl Grounds {
    /// The grounds of a legal trace, by its trail where that is kept. The only error is want of memory.
    pub fn along(
        alloc: Global,
        app: &App,
        trace: &Trace,
        trail: &Trail,
    ) -> Result<Grounds, NoMemory>
        requires sound { IsTrue (is_sound app.now) }
        requires legal { IsLegalTrace app.now trace.now }
        requires trail { IsTrailIfKept app.now trace.now trail.now }
        ensures { IfOk result (AreGroundsOf app.now trace.now) }
    {
        match Course::along(alloc, app, trace, trail)? {
            Course::Loss(mark) => Ok(Grounds::Loss(mark)),
            Course::NoLoss(pasts) => {
                let writes = Writes::of(alloc, app, trace)?;
                Ok(Grounds::NoLoss { pasts, writes })
            }
        }
    }

    /// The grounds of a legal trace, whose trail is found by one walk along it.
    pub fn of(alloc: Global, app: &App, trace: &Trace) -> Result<Grounds, NoMemory>
        requires sound { IsTrue (is_sound app.now) }
        requires legal { IsLegalTrace app.now trace.now }
        ensures { IfOk result (AreGroundsOf app.now trace.now) }
    {
        let trail = Trail::of(alloc, app, trace.as_slice())?;
        Grounds::along(alloc, app, trace, &trail)
    }

    /// What is answered of reads of the trace. The only error is want of memory.
    pub fn answer(
        &self,
        alloc: Global,
        trace: &Trace,
        reads: &[u32],
    ) -> Result<OrderAnswer, NoMemory>
        requires grounds { (app : App) × AreGroundsOf app trace.now self.now }
        requires reads { All (λ r. is_at (λ e. words.reads e.call) trace.now r ≡ true) reads.now }
        ensures { (app : App) → AreGroundsOf app trace.now self.now → IfOk result (IsAnswer app trace.now reads.now) }
    {
        match self {
            Grounds::Loss(mark) => Ok(OrderAnswer::Lossy(*mark)),
            Grounds::NoLoss { pasts, writes } => answer_lossless(
                alloc,
                trace,
                pasts.as_slice(),
                writes,
                reads,
            ),
        }
    }
}
