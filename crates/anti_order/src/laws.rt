// Laws of answers. The functions do nothing: what they say is in their contracts.
ghost use Rattle.std.specs.Prelude.{List, IsTrue};
ghost use Rattle.anti_kind.specs.declared.entry.Entry.{Entry};
ghost use Rattle.anti_app.specs.declared.app.App.{App};
ghost use Rattle.anti_app.specs.Sound.{is_sound};
ghost use Rattle.anti_trace.specs.Legal.{IsLegalTrace};
ghost use Rattle.anti_order.specs.Chains.{ChainsAreExplained};
ghost use Rattle.anti_order.specs.Answers.{SpansAreExplained};

use law_serial::{orders_are_serial, reads_of_a_span_are_a_chain};

/// In a legal trace of a sound application an order that is answered of reads, of which each is causally before the next, has all writes
/// and the reads once each, respects the causal order, and explains what the reads show. The reads of a span are such reads.
pub fn answered_orders_explain()
    ensures chains { (app : App) (trace : List Entry) → IsTrue (is_sound app) → IsLegalTrace app trace → ChainsAreExplained app trace }
    ensures spans { (app : App) (trace : List Entry) → IsTrue (is_sound app) → IsLegalTrace app trace → SpansAreExplained app trace }
{
    orders_are_serial();
    reads_of_a_span_are_a_chain();
}
