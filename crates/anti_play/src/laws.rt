// Laws of runs. The functions do nothing: what they say is in their contracts.
ghost use Rattle.std.specs.Prelude.{◌≡◌, ◌<◌, ℕ, All, Some, IsTrue, filter, nat_lt, slice_get};
ghost use Rattle.anti_kind.specs.declared.entry.Entry.{Entry};
ghost use Rattle.anti_app.specs.declared.app.App.{App};
ghost use Rattle.anti_app.specs.declared.app.SubDef.{SubDef};
ghost use Rattle.anti_app.specs.declared.app.Choice.TheVariants.{Pull, Repull};
ghost use Rattle.anti_app.specs.Sound.{is_sound};
ghost use Rattle.anti_trace.specs.Legal.{IsLegalTrace};
ghost use Rattle.anti_play.specs.Complete.{IsComplete};
ghost use Rattle.anti_play.specs.Over.{IsOver};
ghost use Rattle.anti_play.specs.Schedule.{chosen, finished};
ghost use Rattle.anti_play.specs.Pulls.{StartsHandlerOf};
ghost use Rattle.anti_trace.specs.Histories.{Entries, GoesOn};

/// What `finish` makes of a legal trace of a sound application is a legal trace, in which the history of each object goes on from what it
/// was, and after which nothing is left to make. What it makes has no seat. This means that no process can go on, no message waits to be
/// taken or can be pulled, no write is on its way, and no cache is behind that could be refreshed.
pub fn finish_completes()
    ensures run { (app : App) (trace : Entries) → IsTrue (is_sound app) → IsLegalTrace app trace
        → IsLegalTrace app (finished app trace) }
    ensures goes_on { (app : App) (trace : Entries) → IsTrue (is_sound app)
        → IsLegalTrace app trace → GoesOn trace (finished app trace) }
    ensures complete { (app : App) (trace : Entries) → IsTrue (is_sound app)
        → IsLegalTrace app trace → IsComplete app (finished app trace) }
    ensures over { (app : App) (trace : Entries) → IsTrue (is_sound app)
        → IsLegalTrace app trace → IsComplete app trace → IsOver app trace }
    ensures seats { (app : App) (trace : Entries) → All (λ e. 0 < e.seat) trace
        → filter (λ e. nat_lt 0 e.seat) (finished app trace) ≡ trace }
{}

/// What a pull makes starts the handler of its subscription. The schedule asks by the position of the subscription among those of its store,
/// and by this position the process finds the subscription.
pub fn pulls_start_handlers()
    ensures pull { (app : App) (trace : Entries) (number : ℕ) (sub : SubDef) (e : Entry)
        → slice_get app.subs.items number ≡ Some sub
        → chosen app trace (Pull number) ≡ Some e → StartsHandlerOf app sub e }
    ensures repull { (app : App) (trace : Entries) (number version : ℕ) (sub : SubDef) (e : Entry)
        → slice_get app.subs.items number ≡ Some sub
        → chosen app trace (Repull number version) ≡ Some e → StartsHandlerOf app sub e }
{}
