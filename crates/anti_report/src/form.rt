use anti_app::{App, Waits};
use anti_ids::{Bytes, NoMemory};
use anti_trace::{Aftermath, Trace};
use std::alloc::Global;

/// A form in which something of a run of an application is printed. It says what bytes print it, and prints that of the run it is given.
pub trait Form {
    ghost use Rattle.std.specs.Prelude.{ℕ, List, IfOk, IsTrue};
    ghost use Rattle.anti_kind.specs.declared.entry.Entry.{Entry};
    ghost use Rattle.anti_app.specs.declared.app.App.{App};
    ghost use Rattle.anti_app.specs.Sound.{is_sound};
    ghost use Rattle.anti_trace.specs.Legal.{IsLegalTrace};
    ghost use Rattle.anti_trace.specs.inner.Trails.{IsAftermathOf};

    // of an application, the entries of a run and the numbers of the choices that made no entry
    ghost prints: { App → List Entry → List ℕ → List ℕ → Type 0 };

    /// The text of a run, of whose processes this is left. The only error is want of memory.
    fn print(
        alloc: Global,
        app: &App,
        trace: &Trace,
        waits: &Waits,
        after: Aftermath,
    ) -> Result<Bytes, NoMemory>
        requires sound { IsTrue (is_sound app.now) }
        requires legal { IsLegalTrace app.now trace.now }
        requires after { IsAftermathOf app.now trace.now after }
        ensures { IfOk result (λ t. prints app.now trace.now waits.now.items t.items) };
}
