ghost use Rattle.std.specs.Prelude.{ℕ, ◌≡◌, ◌++◌, ◌∷◌, [], IsTrue, MatchResult, None, Some, option_map, position};
ghost use Rattle.anti_app.specs.declared.app.App.{App};
ghost use Rattle.anti_app.specs.Sound.{is_sound};
ghost use Rattle.anti_trace.specs.Histories.{Entries};
ghost use Rattle.anti_trace.specs.Legal.{IsLegalTrace};
ghost use Rattle.anti_trace.specs.inner.Living.{AreOfSome, AreProcessesOf, IsNextBy, IsNextOf, IsPlaceOf, Shows, born_at, is_named, lists};

use crate::process_steps::{advance, born};
use crate::processes::Processes;
use anti_app::App;
use anti_ids::NoMemory;
use anti_kind::{Actor, Birth, Entry};
use anti_proc::Process;
use std::alloc::Global;

impl Processes {
    /// Where the process of an entry stands among those that were born at its object; `None` where it is not born yet, and where a carrier
    /// makes the entry. It takes no memory.
    pub fn place_of(&self, entry: &Entry) -> Option<usize>
        requires { AreOfSome (lists self.now) }
        ensures { IsPlaceOf (lists self.now) entry.now result }
    {
        match entry.actor {
            Actor::Process(birth) => self.find(birth),
            _ => None,
        }
    }

    /// The process of a birth, by the place at which it stands, where it was born. It takes no memory.
    pub fn of(&self, birth: Birth, place: Option<usize>) -> Option<&Process>
        requires { place ≡ position (is_named birth) (born_at (lists self.now) birth.object) }
        ensures { (app : App) (trace : Entries) → AreProcessesOf app (lists self.now) trace
            → Shows app trace birth (option_map (λ p. p.now) result) }
    {
        match place {
            Some(at) => Some(self.get(birth.object, at)),
            None => None,
        }
    }

    /// Goes past the next entry of a legal trace. The process that it starts is born, the one that makes it takes its reply, and where a
    /// carrier makes it nothing changes. Without memory the processes stand for what they stood for.
    pub fn follow(&mut self, alloc: Global, app: &App, entry: &Entry) -> Result<(), NoMemory>
        requires sound { IsTrue (is_sound app.now) }
        requires next { IsNextOf app.now (lists self.old) entry.now }
        ensures { (before after : Entries) → IsLegalTrace app.now (before ++ entry.now ∷ after)
            → AreProcessesOf app.now (lists self.old) before
            → MatchResult result
            (λ _. AreProcessesOf app.now (lists self.new) (before ++ entry.now ∷ []))
            (λ _. AreProcessesOf app.now (lists self.new) before) }
    {
        let place = self.place_of(entry);
        self.follow_from(alloc, app, entry, place)
    }

    /// Does so where the process of the entry was found, at its place.
    pub fn follow_from(
        &mut self,
        alloc: Global,
        app: &App,
        entry: &Entry,
        place: Option<usize>,
    ) -> Result<(), NoMemory>
        requires sound { IsTrue (is_sound app.now) }
        requires next { IsNextOf app.now (lists self.old) entry.now }
        requires place { IsPlaceOf (lists self.old) entry.now place }
        ensures { (before after : Entries) → IsLegalTrace app.now (before ++ entry.now ∷ after)
            → AreProcessesOf app.now (lists self.old) before
            → MatchResult result
            (λ _. AreProcessesOf app.now (lists self.new) (before ++ entry.now ∷ []))
            (λ _. AreProcessesOf app.now (lists self.new) before) }
    {
        match entry.actor {
            Actor::Process(birth) => match place {
                Some(at) => self.feed(app, entry, birth, at),
                None => self.bear(alloc, app, entry, birth),
            },
            Actor::Carrier(_) => Ok(()),
            Actor::Newborn => Ok(()),
        }
    }

    // Goes past the next entry of a process that is not born yet: it is its birth.
    fn bear(
        &mut self,
        alloc: Global,
        app: &App,
        entry: &Entry,
        birth: Birth,
    ) -> Result<(), NoMemory>
        requires sound { IsTrue (is_sound app.now) }
        requires next { IsNextBy app.now (lists self.old) entry.now birth }
        requires unborn { position (is_named birth) (born_at (lists self.old) birth.object) ≡ None }
        ensures { (before after : Entries) → IsLegalTrace app.now (before ++ entry.now ∷ after)
            → AreProcessesOf app.now (lists self.old) before
            → MatchResult result
            (λ _. AreProcessesOf app.now (lists self.new) (before ++ entry.now ∷ []))
            (λ _. AreProcessesOf app.now (lists self.new) before) }
    {
        self.reserve(birth.object)?;
        let process = born(alloc, app, entry)?;
        self.put(birth.object, process);
        Ok(())
    }

    // Goes past the next entry of a process that was born: it takes the reply.
    fn feed(&mut self, app: &App, entry: &Entry, birth: Birth, at: usize) -> Result<(), NoMemory>
        requires sound { IsTrue (is_sound app.now) }
        requires next { IsNextBy app.now (lists self.old) entry.now birth }
        requires found { position (is_named birth) (born_at (lists self.old) birth.object) ≡ Some at }
        ensures { (before after : Entries) → IsLegalTrace app.now (before ++ entry.now ∷ after)
            → AreProcessesOf app.now (lists self.old) before
            → MatchResult result
            (λ _. AreProcessesOf app.now (lists self.new) (before ++ entry.now ∷ []))
            (λ _. AreProcessesOf app.now (lists self.new) before) }
    {
        let advance = advance(app, self.get(birth.object, at), entry)?;
        self.make_room(birth.object, at)?;
        self.take_over(birth.object, at, entry.stamp, advance);
        Ok(())
    }
}
