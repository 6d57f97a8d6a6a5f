// Laws of legal traces. The functions do nothing: what they say is in their contracts.
ghost use Rattle.std.specs.Prelude.{List, IsTrue};
ghost use Rattle.anti_kind.specs.declared.entry.Entry.{Entry};
ghost use Rattle.anti_app.specs.declared.app.App.{App};
ghost use Rattle.anti_app.specs.Sound.{is_sound};
ghost use Rattle.anti_trace.specs.Legal.{IsLegalTrace};
ghost use Rattle.law_causal.specs.Pasts.{CarriedIsCausal, CarriedWasWritten, KeptIsOver};
ghost use Rattle.law_causal.specs.Carried.{IsLossless};
ghost use Rattle.law_causal.specs.Settled.{BarriersFindAll, DryRunsName};

/// In a legal trace of a sound application that loses no lineage, what is carried into a read, and what comes with its rows, is just what is
/// causally before the read; and the lineage that is kept beside a write is just what is causally before the write. Also where lineages are
/// lost this lineage is what the process of the write carries, with the write that is replaced and what is kept beside that.
pub fn carried_sets_are_the_causal_past()
    ensures past { (app : App) (trace : List Entry) → IsTrue (is_sound app)
        → IsLegalTrace app trace → IsLossless app trace → CarriedIsCausal app trace }
    ensures kept { (app : App) (trace : List Entry) → IsLegalTrace app trace → KeptIsOver app trace }
{}

/// In a legal trace of a sound application each id that a process carries was written before, and causally so. Lineages may be lost.
pub fn carried_ids_were_written()
    ensures { (app : App) (trace : List Entry) → IsTrue (is_sound app)
        → IsLegalTrace app trace → CarriedWasWritten app trace }
{}

/// In a legal trace of a sound application each barrier that is answered asked, by its looks, for all that its process carries, of the
/// stores with a replica in the region, and found it. Each look of a dry run names just what of its store is not visible, and the looks of
/// a finished dry run asked for all that is carried in the same way.
pub fn barriers_find_all()
    ensures barriers { (app : App) (trace : List Entry) → IsTrue (is_sound app)
        → IsLegalTrace app trace → BarriersFindAll app trace }
    ensures dry_runs { (app : App) (trace : List Entry) → IsTrue (is_sound app)
        → IsLegalTrace app trace → DryRunsName app trace }
{}
