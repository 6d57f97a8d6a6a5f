// Laws of placed applications. The functions do nothing: what they say is in their contracts.
ghost use Rattle.std.specs.Prelude.{◌≡◌, List, IsTrue};
ghost use Rattle.anti_kind.specs.declared.entry.Entry.{Entry};
ghost use Rattle.anti_app.specs.declared.app.App.{App};
ghost use Rattle.anti_app.specs.Sound.{is_sound};
ghost use Rattle.anti_trace.specs.Legal.{IsLegalTrace};
ghost use Rattle.law_causal.specs.Carried.{IsLossless};
ghost use Rattle.anti_place.specs.Placements.{placement};
ghost use Rattle.anti_place.specs.declared.placement.Placement.TheVariants.{Yes};
ghost use Rattle.law_placed.specs.Guarded.{AllExplained, AllSettled};

use law_serial::{orders_are_serial, reads_of_a_span_are_a_chain};

/// In each legal trace of a sound application that is placed no entry loses an id and each read is settled; so the order of each span's
/// reads explains them.
pub fn placed_applications_keep_all()
    ensures lossless { (app : App) → IsTrue (is_sound app) → placement app ≡ Yes
        → (trace : List Entry) → IsLegalTrace app trace → IsLossless app trace }
    ensures settled { (app : App) → IsTrue (is_sound app) → placement app ≡ Yes
        → (trace : List Entry) → IsLegalTrace app trace → AllSettled app trace }
    ensures explained { (app : App) → IsTrue (is_sound app) → placement app ≡ Yes
        → (trace : List Entry) → IsLegalTrace app trace → AllExplained app trace }
{
    orders_are_serial();
    reads_of_a_span_are_a_chain();
}
