// Laws of legal traces. The functions do nothing: what they say is in their contracts.
ghost use Rattle.std.specs.Prelude.{◌≡◌, ◌<◌, ◌≤◌, List, [], length, true, false, None, All, IsTrue};
ghost use Rattle.anti_kind.specs.declared.actor.Actor.TheVariants.{Process};
ghost use Rattle.anti_kind.specs.declared.actor.Birth.{Birth};
ghost use Rattle.anti_kind.specs.declared.entry.Entry.{Entry};
ghost use Rattle.anti_app.specs.declared.app.App.{App};
ghost use Rattle.anti_app.specs.Sound.{is_sound};
ghost use Rattle.anti_proc.specs.Foreign.{is_foreign};
ghost use Rattle.anti_proc.specs.Known.{IsEntryOf};
ghost use Rattle.anti_proc.specs.Tasks.{task_of};
ghost use Rattle.anti_trace.specs.Traces.{entries_by, entries_on};
ghost use Rattle.anti_trace.specs.Legal.{IsLegalTrace, bears};

/// In a legal trace of a sound application each entry is one of the application. No stamp is above the number of the entries, and a
/// process that is not born has no entry.
pub fn legal_traces_are_known()
    ensures known { (app : App) (trace : List Entry) → IsTrue (is_sound app)
        → IsLegalTrace app trace → All (IsEntryOf app) trace }
    ensures stamps { (app : App) (trace : List Entry) → IsLegalTrace app trace
        → All (λ e. e.stamp ≤ length trace) trace }
    ensures unborn { (app : App) (trace : List Entry) (b : Birth) → IsLegalTrace app trace
        → length (entries_on b.object trace) < b.place → entries_by (Process b) trace ≡ [] }
{}

/// So no reply in it is foreign to the application, and each entry by whose call a process is born starts one. A process of a world is
/// never refused a message or a reply.
pub fn nothing_is_foreign()
    ensures replies { (app : App) (trace : List Entry) → IsTrue (is_sound app)
        → IsLegalTrace app trace → All (λ e. is_foreign app e.reply ≡ false) trace }
    ensures births { (app : App) (trace : List Entry) → IsTrue (is_sound app)
        → IsLegalTrace app trace
        → All (λ e. bears e.call ≡ true → task_of app e ≡ None → ⊥) trace }
{}
