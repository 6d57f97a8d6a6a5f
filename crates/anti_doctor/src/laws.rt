// Laws of diagnoses. The functions do nothing: what they say is in their contracts.
ghost use Rattle.std.specs.Prelude.{List, IsTrue};
ghost use Rattle.anti_kind.specs.declared.entry.Entry.{Entry};
ghost use Rattle.anti_app.specs.declared.app.App.{App};
ghost use Rattle.anti_app.specs.Sound.{is_sound};
ghost use Rattle.anti_trace.specs.Legal.{IsLegalTrace};
ghost use Rattle.anti_doctor.specs.Diagnoses.{SpansAreDecided};
ghost use Rattle.anti_doctor.specs.Laws.{ChainsAreDecided};

use law_serial::{orders_by_causes_are_serial, reads_of_a_span_are_a_chain};

/// In a legal trace of a sound application, whether or not it loses lineages, a diagnosis of reads of which each is causally before the next
/// is right: a sound one tells an order that explains the reads, and of others no order does. The reads of a span are such reads.
pub fn diagnoses_decide()
    ensures chains { (app : App) (trace : List Entry) → IsTrue (is_sound app) → IsLegalTrace app trace → ChainsAreDecided trace }
    ensures spans { (app : App) (trace : List Entry) → IsTrue (is_sound app) → IsLegalTrace app trace → SpansAreDecided trace }
{
    orders_by_causes_are_serial();
    reads_of_a_span_are_a_chain();
}
