// A law of workers. The function does nothing: what it says is in its contract.
ghost use Rattle.std.specs.Prelude.{◌≡◌, ℕ, List};
ghost use Rattle.anti_kind.specs.declared.entry.Entry.{Entry};
ghost use Rattle.anti_app.specs.declared.app.App.{App};
ghost use Rattle.anti_trace.specs.Legal.{IsLegalTrace};
ghost use Rattle.anti_trace.specs.Traces.{IsTrace, entries_on};
ghost use Rattle.anti_work.specs.inner.Works.{AreMadeBy};

/// Where workers made the histories of the objects, each by a pass of its own for each object, these are the histories of a legal trace:
/// the one in which all entries stand by stamp and object.
pub fn merged_histories_are_legal()
    ensures { (app : App) (histories : ℕ → List Entry) (seat : ℕ → ℕ → ℕ) (count : ℕ)
        (works : ℕ → List Entry) (trace : List Entry)
        → AreMadeBy app histories seat count works → IsTrace trace
        → ((o : ℕ) → entries_on o trace ≡ histories o) → IsLegalTrace app trace }
{}
