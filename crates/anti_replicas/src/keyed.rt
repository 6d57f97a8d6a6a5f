ghost use Rattle.std.specs.Prelude.{◌≡◌, ℕ, true, List, [], ◌∷◌, ◌++◌, IfOk, IsOk, OnErr, OnOk};
ghost use Rattle.anti_kind.specs.Kinds.{facts_of};
ghost use Rattle.anti_kind.specs.declared.call.Call.TheVariants.{Write};
ghost use Rattle.anti_kind.specs.declared.entry.Entry.{Entry};
ghost use Rattle.anti_kind.specs.declared.store_kind.StoreKind.{StoreKind};
ghost use Rattle.anti_kind.specs.Objects.{store, Follows};
ghost use Rattle.anti_kind.specs.Shipments.{IsShip};
ghost use Rattle.anti_kind.specs.Store.{Store, store_due, store_ready};

use crate::replicas::Replicas;
use anti_ids::{Lineage, Name, NoMemory};
use anti_kind::{Call, Handle, Reply};

// The table of the stores that are read by keys: `Write`, `Read`, `Scan` where the kind is scanned, and what all kinds share.
impl Replicas {
    ghost use Rattle.anti_replicas.specs.Stores.{At, MayKeep, MayKeyed, MayApplyKeyed, keyed, number_of, regions_of};
    ghost use Rattle.anti_replicas.specs.inner.Standing.{Stands};

    // Whether all keys with a prefix are read at once.
    fn is_scanned(&self) -> bool
        ensures { (s : Store) (h : List Entry) → At self.now s h → result ≡ (facts_of s.kind).scanned }
    {
        self.kind.facts().scanned
    }

    /// Whether a call is ready, in a store that is read by keys.
    pub fn keyed_ready(&self, c: &Call) -> bool
        ensures { (kind : StoreKind) (number : ℕ) (regions : List ℕ) (h : List Entry) → At self.now (keyed kind number regions) h
            → (facts_of kind).keyed ≡ true → result ≡ store_ready (keyed kind number regions) h c.now }
    {
        match c {
            Call::Write { .. } => true,
            Call::Ship { .. } | Call::Again { .. } | Call::Look { .. } => self.shared_ready(c),
            Call::Read { region, .. } => self.is_replica(*region),
            Call::Scan { region, .. } => self.is_scanned() && self.is_replica(*region),
            _ => false,
        }
    }

    /// The reply to a write of the key, in a store that is read by keys.
    pub fn written(&self, key: &Handle<Name>, lineage: &Lineage) -> Result<Reply, NoMemory>
        requires { MayKeep self.now key.now lineage.now }
        ensures { (s : Store) (h : List Entry) (value : List ℕ) → At self.now s h → (facts_of s.kind).keyed ≡ true
            → IfOk result (λ r. r ≡ store_due s h (Write key.now value lineage.now)) }
    {
        let over = self.told_over(key.get(), lineage)?;
        let key = key.share()?;
        Ok(Reply::Written {
            key,
            version: self.next_version(),
            over,
        })
    }

    /// The reply that a call is due, which is ready and fits, in a store that is read by keys. Of a `Ship` it takes no memory.
    pub fn keyed_due(&self, c: &Call) -> Result<Reply, NoMemory>
        requires { MayKeyed self.now c.now }
        ensures due { (kind : StoreKind) (number : ℕ) (regions : List ℕ) (h : List Entry) → At self.now (keyed kind number regions) h
            → (facts_of kind).keyed ≡ true → IfOk result (λ r. r ≡ store_due (keyed kind number regions) h c.now) }
        ensures ship { IsShip c.now → IsOk result }
    {
        match c {
            Call::Write { key, lineage, .. } => self.written(key, lineage.get()),
            Call::Ship { .. } | Call::Again { .. } | Call::Look { .. } => self.shared_due(c),
            Call::Read { region, key } => self.read(*region, key),
            Call::Scan { region, prefix } => self.scan(*region, prefix),
            _ => unreachable!(), // no other call is ready, by the table
        }
    }

    /// Makes a call that is ready and fits, with the reply that it is due, in a store that is read by keys. Where there is no memory it
    /// stands for what it stood for. A `Ship` takes no memory.
    pub fn keyed_apply(&mut self, c: &Call, reply: &Reply) -> Result<(), NoMemory>
        requires { MayApplyKeyed self.old c.now reply.now }
        ensures stands { (kind : StoreKind) (number : ℕ) (regions : List ℕ) (h : List Entry) (e : Entry)
            → At self.old (keyed kind number regions) h → (facts_of kind).keyed ≡ true
            → Follows (store (keyed kind number regions)) h e → e.call ≡ c.now → e.reply ≡ reply.now
            → OnOk result (Stands self.new (keyed kind number regions) (h ++ e ∷ [])) }
        ensures err { (s : Store) (h : List Entry) → Stands self.old s h → OnErr result (Stands self.new s h) }
        ensures number { number_of self.new ≡ number_of self.old }
        ensures regions { regions_of self.new ≡ regions_of self.old }
        ensures ship { IsShip c.now → IsOk result }
    {
        match c {
            Call::Write { value, lineage, .. } => self.write(value, lineage.get(), reply),
            Call::Ship { .. } | Call::Again { .. } | Call::Look { .. } | Call::Read { .. } => {
                self.pass(c);
                Ok(())
            }
            Call::Scan { .. } => {
                self.note(reply.weight());
                Ok(())
            }
            _ => unreachable!(), // no other call is ready, by the table
        }
    }
}
