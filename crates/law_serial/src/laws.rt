// Laws of orders. The functions do nothing: what they say is in their contracts.
ghost use Rattle.std.specs.Prelude.{ℕ, List, IsTrue};
ghost use Rattle.anti_kind.specs.declared.actor.Birth.{Birth};
ghost use Rattle.anti_kind.specs.declared.entry.Entry.{Entry};
ghost use Rattle.anti_app.specs.declared.app.App.{App};
ghost use Rattle.anti_app.specs.Sound.{is_sound};
ghost use Rattle.anti_trace.specs.Legal.{IsLegalTrace};
ghost use Rattle.law_causal.specs.Carried.{IsLossless};
ghost use Rattle.law_causal.specs.Reads.{reads_of};
ghost use Rattle.law_serial.specs.Causes.{IsChain};
ghost use Rattle.law_serial.specs.Chains.{NothingMissed, OrdersAreSerial, OrdersByCausesAreSerial};

/// In a legal trace of a sound application that loses no lineage a settled read shows, of each key that it speaks of, no version below that
/// of a write which is causally before it.
pub fn settled_reads_miss_nothing()
    ensures { (app : App) (trace : List Entry) → IsTrue (is_sound app)
        → IsLegalTrace app trace → IsLossless app trace → NothingMissed app trace }
{}

/// In such a trace the order of settled reads, of which each is causally before the next, has all writes and the reads once each, respects
/// the causal order, and explains each read.
pub fn orders_are_serial()
    ensures { (app : App) (trace : List Entry) → IsTrue (is_sound app)
        → IsLegalTrace app trace → IsLossless app trace → OrdersAreSerial app trace }
{}

/// In a legal trace of a sound application, whether or not it loses lineages, the order of reads that miss nothing, of which each is
/// causally before the next, by what is causally before them, has all writes and the reads once each, respects the causal order, and
/// explains each read.
pub fn orders_by_causes_are_serial()
    ensures { (app : App) (trace : List Entry) → IsTrue (is_sound app)
        → IsLegalTrace app trace → OrdersByCausesAreSerial trace }
{}

/// Each read of a span is causally before the next one, in any trace.
pub fn reads_of_a_span_are_a_chain()
    ensures { (trace : List Entry) (birth : Birth) (span : ℕ) → IsChain trace (reads_of trace birth span) }
{}
