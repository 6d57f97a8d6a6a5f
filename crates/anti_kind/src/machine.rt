use crate::awaited::Awaited;
use crate::call::{Call, Reply};
use anti_ids::NoMemory;

/// The state of an object. It stands for a start and for the history of the calls that were made: what it answers is what the
/// object's table says after each history that it stands for. The calls but `due` and `apply` take no memory.
pub trait Machine {
    ghost use Rattle.std.specs.Prelude.{◌≡◌, List, [], ◌∷◌, ◌++◌, true, IfOk, IfSome, OnOk, OnErr, IsOk};
    ghost use Rattle.anti_kind.specs.declared.entry.Entry.{Entry};
    ghost use Rattle.anti_kind.specs.Waiting.{waits};
    ghost use Rattle.anti_kind.specs.Objects.{Start, ready, need, held, owed, due, Follows};
    ghost use Rattle.anti_kind.specs.Shipments.{upto, next_ship, IsShip};
    ghost use Rattle.anti_kind.specs.Machines.{StandsFor, MayMake, MayApply};

    ghost start: { Self → Start };

    ghost Stands: { Self → List Entry → Type 0 };

    /// Whether a call is ready.
    fn ready(&self, c: &Call) -> bool
        ensures { (h : List Entry) → StandsFor (start self.now) (Stands self.now) h → result ≡ ready (start self.now) h c.now };

    /// The units that a call needs.
    fn need(&self, c: &Call) -> u32
        ensures { (h : List Entry) → StandsFor (start self.now) (Stands self.now) h → result ≡ need (start self.now) h c.now };

    /// The units of the calls that were made.
    fn held(&self) -> u32
        ensures { (h : List Entry) → StandsFor (start self.now) (Stands self.now) h → result ≡ held h };

    /// The units that are reserved for later calls.
    fn owed(&self) -> u32
        ensures { (h : List Entry) → StandsFor (start self.now) (Stands self.now) h → result ≡ owed (start self.now) h };

    /// How many versions, from the first on, are whole at the region. An object that is no store has none.
    fn upto(&self, region: u32) -> u64
        ensures { (h : List Entry) → StandsFor (start self.now) (Stands self.now) h → result ≡ upto (start self.now) h region };

    /// The next shipment to the region, its version and its part: of the lowest version that can be shipped there the lowest part.
    /// There is none where all is there, nor of an object that is no store.
    fn next_ship(&self, region: u32) -> Option<(u64, u32)>
        ensures { (h : List Entry) → StandsFor (start self.now) (Stands self.now) h → result ≡ next_ship (start self.now) h region };

    /// What a call that is not ready waits for, where that is known: then it is not ready before something brings it. `None` says
    /// nothing.
    fn awaits(&self, c: &Call) -> Option<Awaited>
        ensures { (h : List Entry) → StandsFor (start self.now) (Stands self.now) h
            → IfSome result (λ awaited. waits (start self.now) h c.now awaited ≡ true) };

    /// The reply that a call is due, which is ready and fits. Nothing changes. Of a `Ship` it takes no memory.
    fn due(&self, c: &Call) -> Result<Reply, NoMemory>
        requires { MayMake (start self.now) (Stands self.now) c.now }
        ensures due { (h : List Entry) → StandsFor (start self.now) (Stands self.now) h → IfOk result (λ r. r ≡ due (start self.now) h c.now) }
        ensures ship { IsShip c.now → IsOk result };

    /// Makes a call that is ready and fits, with the reply that it is due, which `due` tells before. Where there is no memory it stands for
    /// what it stood for. A `Ship` takes no memory.
    fn apply(&mut self, c: &Call, reply: &Reply) -> Result<(), NoMemory>
        requires { MayApply (start self.old) (Stands self.old) c.now reply.now }
        ensures stands { (h : List Entry) (e : Entry) → StandsFor (start self.old) (Stands self.old) h → Follows (start self.old) h e
            → e.call ≡ c.now → e.reply ≡ reply.now → OnOk result (Stands self.new (h ++ e ∷ [])) }
        ensures err { (h : List Entry) → Stands self.old h → OnErr result (Stands self.new h) }
        ensures start { start self.new ≡ start self.old }
        ensures ship { IsShip c.now → IsOk result };
}
