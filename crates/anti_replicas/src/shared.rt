ghost use Rattle.std.specs.Prelude.{◌≡◌, ℕ, true, false, List, [], ◌∷◌, ◌++◌, IfOk, IfSome, IsOk};
ghost use Rattle.anti_kind.specs.Kinds.{facts_of};
ghost use Rattle.anti_kind.specs.declared.entry.Entry.{Entry};
ghost use Rattle.anti_kind.specs.declared.store_kind.StoreKind.{StoreKind};
ghost use Rattle.anti_kind.specs.declared.store_kind.Sub.{Sub};
ghost use Rattle.anti_kind.specs.Objects.{store, weight, Follows};
ghost use Rattle.anti_kind.specs.Shipments.{IsShip};
ghost use Rattle.anti_kind.specs.Store.{Store, store_of, store_due, store_ready};
ghost use Rattle.anti_kind.specs.Waiting.{waits};

use crate::replicas::Replicas;
use anti_ids::NoMemory;
use anti_kind::{Awaited, Call, Reply};

// What is the same in the tables of all kinds: `Ship`, `Again` and `Look`, and what a call changes that writes nothing.
impl Replicas {
    ghost use Rattle.anti_replicas.specs.Stores.{At, IsShared, IsPassing, MayPass, kind_of, number_of, regions_of};
    ghost use Rattle.anti_replicas.specs.inner.Standing.{Stands};

    /// Whether such a call is ready.
    pub fn shared_ready(&self, c: &Call) -> bool
        requires { IsShared c.now }
        ensures { (kind : StoreKind) (number : ℕ) (regions : List ℕ) (subs : List Sub) (tries : ℕ) (h : List Entry)
            → At self.now (store_of kind number regions subs tries) h
            → result ≡ store_ready (store_of kind number regions subs tries) h c.now }
    {
        match c {
            Call::Ship {
                region,
                version,
                part,
            } => self.can_ship(*region, *version, *part),
            Call::Again {
                region,
                version,
                part,
            } => self.was_shipped(*region, *version, *part),
            Call::Look { region, ids, dry } => self.can_look(*region, ids.get(), *dry),
            _ => unreachable!(), // no other call is shared
        }
    }

    /// What such a call waits for that is not ready, where that is known, in a store without caches. Of others it is not.
    pub fn shared_awaits(&self, c: &Call) -> Option<Awaited>
        ensures { (kind : StoreKind) (number : ℕ) (regions : List ℕ) (subs : List Sub) (tries : ℕ) (h : List Entry)
            → At self.now (store_of kind number regions subs tries) h → (facts_of kind).cached ≡ false
            → IfSome result (λ awaited. waits (store (store_of kind number regions subs tries)) h c.now awaited ≡ true) }
    {
        match c {
            Call::Look { region, ids, dry } => self.look_awaits(*region, ids.get(), *dry),
            _ => None,
        }
    }

    /// The reply that such a call is due, which is ready and fits. Of a `Ship` it takes no memory.
    pub fn shared_due(&self, c: &Call) -> Result<Reply, NoMemory>
        requires { IsShared c.now }
        ensures due { (kind : StoreKind) (number : ℕ) (regions : List ℕ) (subs : List Sub) (tries : ℕ) (h : List Entry)
            → At self.now (store_of kind number regions subs tries) h
            → IfOk result (λ r. r ≡ store_due (store_of kind number regions subs tries) h c.now) }
        ensures ship { IsShip c.now → IsOk result }
    {
        match c {
            Call::Ship { .. } | Call::Again { .. } => Ok(Reply::Moved),
            Call::Look { region, ids, .. } => self.look(*region, ids.get()),
            _ => unreachable!(), // no other call is shared
        }
    }

    /// Makes a call that is ready and fits, writes nothing, and whose reply weighs one unit. It takes no memory.
    pub fn pass(&mut self, c: &Call)
        requires may { MayPass self.old c.now }
        requires passing { IsPassing c.now }
        ensures stands { (s : Store) (h : List Entry) (e : Entry) → At self.old s h
            → Follows (store s) h e → e.call ≡ c.now → weight e.reply ≡ 1
            → Stands self.new s (h ++ e ∷ []) }
        ensures kind { kind_of self.new ≡ kind_of self.old }
        ensures number { number_of self.new ≡ number_of self.old }
        ensures regions { regions_of self.new ≡ regions_of self.old }
    {
        match c {
            Call::Ship {
                region,
                version,
                part,
            } => self.ship(*region, *version, *part),
            _ => self.note(1),
        }
    }
}
