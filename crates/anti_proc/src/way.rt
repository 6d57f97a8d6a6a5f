ghost use Rattle.std.specs.Prelude.{◌≡◌, ◌+◌, ◌^◌, ◌<◌, ◌≤◌, true, false, IfOk, OnOk, if◌then◌else◌, option_map};
ghost use Rattle.anti_proc.specs.Local.{Setting, held_ids, held_in, is_absent, new_span, removed};
ghost use Rattle.anti_proc.specs.Meaning.{Go, carry};
ghost use Rattle.anti_proc.specs.inner.Standing.{local_in, stage_or, variables_in};

use crate::additions::{add, all_absent, take_out};
use crate::changes::{Changes, Since};
use crate::cursor::Cursor;
use crate::given::Given;
use crate::next::Stage;
use crate::variables::{Binding, Variable, held_in};
use anti_app::App;
use anti_baggage::Carried;
use anti_ids::{Name, NoMemory};

/// A handler on its way from one call to the next. The process itself changes when there was memory for all of it.
#[derive(Drop)]
pub struct Way<'a> {
    pub app: &'a App,
    pub given: &'a Given,
    /// The variables that it had as it set out.
    pub before: &'a [Variable],
    /// How far it is in its body.
    pub cursor: Cursor,
    /// What it knows by now, beside those variables.
    pub changes: Changes,
}

// What a variable holds, by what became of the variables that there were.
#[tactic(auto, using(crate::proofs::Setting::held_set, crate::proofs::Setting::held_other))]
fn held_since<'a>(since: &'a Since, before: &'a [Variable], name: &Name) -> Option<&'a Binding>
    ensures { option_map (λ held. held.now) result
        ≡ held_in (variables_in since.now before.now) name.now }
{
    match since {
        Since::Same => held_in(before, name),
        Since::Set(variable) if variable.name == *name => Some(&variable.held),
        Since::Set(_) => held_in(before, name),
        Since::Forgotten => None,
    }
}

impl<'a> Way<'a> {
    /// What a variable holds, where it is set.
    pub fn held(&self, name: &Name) -> Option<&Binding>
        ensures { option_map (λ held. held.now) result
            ≡ held_in (local_in self.now).variables name.now }
    {
        held_since(&self.changes.since, self.before, name)
    }

    // Begins a new span.
    fn begin_span(&mut self, stopped: bool)
        requires { self.old.changes.span + 1 < 2 ^ 32 }
        ensures local { local_in self.new ≡ new_span stopped (local_in self.old) }
        ensures same { self.new ≡ record self.old { changes = self.new.changes } }
    {
        self.changes.span += 1;
        self.changes.stopped = stopped;
        self.changes.carried = Carried::root(self.given.alloc);
        self.changes.since = Since::Forgotten;
    }

    /// Runs `stop`. It takes no memory.
    pub fn stop(&mut self)
        requires { self.old.changes.span + 1 < 2 ^ 32 }
        ensures local { local_in self.new ≡ new_span true (local_in self.old) }
        ensures same { self.new ≡ record self.old { changes = self.new.changes } }
    {
        self.begin_span(true);
    }

    /// Runs `root`. It takes no memory.
    pub fn root(&mut self)
        requires { self.old.changes.span + 1 < 2 ^ 32 }
        ensures local { local_in self.new ≡ (if self.old.changes.stopped
            then record (local_in self.old) { stopped = false } else new_span false (local_in self.old)) }
        ensures span { self.new.changes.span ≤ self.old.changes.span + 1 }
        ensures same { self.new ≡ record self.old { changes = self.new.changes } }
    {
        if self.changes.stopped {
            self.changes.stopped = false;
        } else {
            self.begin_span(false);
        }
    }

    /// Runs `remove`. It takes no memory.
    pub fn remove(&mut self, variable: &Name)
        ensures local { local_in self.new ≡ record (local_in self.old) {
          carried = removed (held_in (local_in self.old).variables variable.now) self.old.changes.carried;
        } }
        ensures same { self.new ≡ record self.old { changes = self.new.changes } }
    {
        let held = held_since(&self.changes.since, self.before, variable);
        take_out(&mut self.changes.carried, held);
    }

    /// Whether the block of an `if` is run. It takes no memory.
    pub fn is_absent(&self, variable: &Name) -> bool
        ensures { result ≡ is_absent (held_in (local_in self.now).variables variable.now) }
    {
        match self.held(variable) {
            Some(Binding::Saw { rows, .. }) => all_absent(rows.as_slice()),
            _ => true,
        }
    }

    /// Runs `append` and `transfer`: adds the ids of what a variable holds to the lineage. Where they are too many the process ends.
    pub fn add(&mut self, variable: &Name) -> Result<Option<Stage>, NoMemory>
        ensures goes { IfOk result (λ stage. (s : Setting) (go : Go)
            → stage_or stage s (local_in self.new) go
            ≡ carry (held_ids (held_in (local_in self.old).variables variable.now)) (local_in self.old) go) }
        ensures span { OnOk result (self.new.changes.span ≡ self.old.changes.span) }
        ensures same { self.new ≡ record self.old { changes = self.new.changes } }
    {
        let held = held_since(&self.changes.since, self.before, variable);
        add(&mut self.changes.carried, held)
    }
}
