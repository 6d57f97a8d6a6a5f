ghost use Rattle.std.specs.Prelude.{◌≡◌, ◌≤◌, IfNone, IfSome, IsTrue};
ghost use Rattle.anti_app.specs.declared.app.App.{App};
ghost use Rattle.anti_app.specs.Objects.{object_count};
ghost use Rattle.anti_app.specs.Sound.{is_sound, is_sound_choice};
ghost use Rattle.anti_trace.specs.Histories.{Entries};
ghost use Rattle.anti_trace.specs.Traces.{entries_on};
ghost use Rattle.anti_play.specs.Schedule.{asked, next_call};
ghost use Rattle.anti_play.specs.inner.Choosing.{AsksAt, MakesNone};
ghost use Rattle.anti_play.specs.inner.Standing.{IsSoundWorld, IsWorldOf, WorldStands};

use crate::choice_call::ChoiceCall;
use crate::world::World;
use anti_app::{App, Choice};
use anti_kind::{Birth, Entry};

impl World {
    /// The object at which a process asks for its next call. None of one that is not there or has ended, which makes no entry.
    pub fn asks_at(&self, birth: Birth) -> Option<u32>
        requires { IsSoundWorld self.now }
        ensures some { (app : App) (trace : Entries) → IsTrue (is_sound app) → WorldStands app self.now trace
            → IfSome result (AsksAt (next_call app trace birth)) }
        ensures none { (app : App) (trace : Entries) → IsTrue (is_sound app) → WorldStands app self.now trace
            → IfNone result (MakesNone app trace (next_call app trace birth)) }
    {
        let at = self.processes.find(birth)?;
        let asked = self.processes.get(birth.object, at).next()?;
        Some(asked.object)
    }

    /// The object at which a choice other than `finish` asks for a call. None where the choice makes no entry, since its process is not
    /// there or has ended.
    pub fn object_of(&self, app: &App, choice: &Choice) -> Option<u32>
        requires sound { IsTrue (is_sound app.now) }
        requires world { IsWorldOf app.now self.now }
        requires named { IsTrue (is_sound_choice app.now choice.now) }
        requires one { choice.now ≡ Choice.Finish → ⊥ }
        ensures some { (trace : Entries) → WorldStands app.now self.now trace
            → IfSome result (AsksAt (asked app.now trace choice.now)) }
        ensures none { (trace : Entries) → WorldStands app.now self.now trace
            → IfNone result (MakesNone app.now trace (asked app.now trace choice.now)) }
    {
        match ChoiceCall::of(app, choice) {
            ChoiceCall::Bears(object, _) => Some(object),
            ChoiceCall::Carries(object, _) => Some(object),
            ChoiceCall::GoesOn(birth) => self.asks_at(birth),
        }
    }

    /// What was done at an object. None of a number that is above those of the objects.
    pub fn history(&self, object: u32) -> Option<&[Entry]>
        ensures some { (app : App) (trace : Entries) → WorldStands app self.now trace
            → IfSome result (λ history. history.now ≡ entries_on object trace) }
        ensures none { (app : App) (trace : Entries) → WorldStands app self.now trace
            → IfNone result (object_count app ≤ object) }
    {
        let recorded = self.objects.get(object as usize)?;
        Some(recorded.history().as_slice())
    }
}
