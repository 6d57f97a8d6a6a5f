ghost use Rattle.std.specs.Prelude.{◌≡◌, ◌<◌, ◌≤◌, [], length, IfOk, OnOk, OnErr, IsErrOf};
ghost use Rattle.std.specs.Arc.{arc_value};
ghost use Rattle.anti_ids.specs.Ids.{with_id, with_ids, without_id};
ghost use Rattle.anti_ids.specs.declared.limits.TheConstants.{MOST_IDS};
ghost use Rattle.anti_ids.specs.List.{plain};
ghost use Rattle.anti_baggage.specs.Texts.{lineage_text};
ghost use Rattle.anti_baggage.specs.inner.Kept.{IsStated};

use crate::baggage::Baggage;
use crate::held::{Held, Stated, serves_again, share, states_over, text_held, with_text_one};
use anti_ids::{Copies, Lineage, LineageRefused, Name, NoMemory, WriteId};
use std::alloc::Global;
use std::marker::Model;
use std::sync::Arc;

/// The lineage that a process carries. Its text stands beside it from when it was made or read until the lineage changes, so that it is not
/// made for each message again. Contracts see the lineage alone.
pub struct Carried {
    lineage: Lineage,
    told: Option<Arc<Stated>>,
}

impl Model for Carried {
    ghost use Rattle.std.specs.Prelude.{List};
    ghost use Rattle.anti_ids.specs.declared.id.WriteId.{WriteId};
    ghost use Rattle.anti_baggage.specs.inner.Kept.{IsTold};

    ghost Value = { List WriteId };

    ghost view = { λ c. c.lineage };

    ghost invariant = { λ c. IsTold c.lineage c.told };
}

// By hand, so that no caller sees the fields.
impl Drop for Carried {
    fn drop(self) {
        let Carried { lineage, told } = self;
        drop(told);
        drop(lineage);
    }
}

impl Carried {
    /// No ids. It takes no memory.
    pub fn root(alloc: Global) -> Carried
        ensures { result ≡ [] }
    {
        Carried::from_lineage(Lineage::root(alloc))
    }

    /// A lineage of which no text is known. It takes no memory.
    pub fn from_lineage(lineage: Lineage) -> Carried
        ensures { result ≡ lineage }
    {
        Carried {
            lineage,
            told: None,
        }
    }

    // The lineage that a text states.
    pub(crate) fn told(alloc: Global, kept: &Arc<Stated>) -> Result<Carried, NoMemory>
        requires { IsStated (arc_value kept.now) }
        ensures { IfOk result (λ carried. carried ≡ (arc_value kept.now).lineage) }
    {
        let lineage = kept.lineage.copy(alloc)?;
        let told = Some(share(kept)?);
        Ok(Carried { lineage, told })
    }

    /// The lineage.
    pub fn lineage(&self) -> &Lineage
        ensures { result.now ≡ self.now }
    {
        &self.lineage
    }

    /// The lineage, without its text.
    pub fn into_lineage(self) -> Lineage
        ensures { result ≡ self }
    {
        let Carried { lineage, told } = self;
        drop(told);
        lineage
    }

    /// Adds an id of version 1 or later.
    pub fn append(&mut self, id: WriteId) -> Result<(), LineageRefused>
        requires { 1 ≤ id.version }
        ensures ok { OnOk result (self.new ≡ with_id id self.old) }
        ensures too_many { IsErrOf result LineageRefused.Full → MOST_IDS < length (with_id id self.old) }
        ensures err { OnErr result (self.new ≡ self.old) }
    {
        let is_new = self.lineage.append(id)?;
        if is_new {
            self.told = None;
        }
        Ok(())
    }

    /// Adds the ids of another lineage: the union of the two.
    pub fn transfer(&mut self, other: &Lineage) -> Result<(), LineageRefused>
        ensures ok { OnOk result (self.new ≡ with_ids other.now self.old) }
        ensures too_many { IsErrOf result LineageRefused.Full → MOST_IDS < length (with_ids other.now self.old) }
        ensures err { OnErr result (self.new ≡ self.old) }
    {
        let before = self.lineage.len();
        self.lineage.transfer(other)?;
        if self.lineage.len() != before {
            self.told = None;
        }
        Ok(())
    }

    /// Takes an id out, where it is there. It takes no memory.
    pub fn remove(&mut self, id: &WriteId)
        ensures { self.new ≡ without_id id.now self.old }
    {
        if self.lineage.remove(id) {
            self.told = None;
        }
    }

    /// The text of the lineage over the names of the stores by their numbers. The only error is want of memory.
    pub fn baggage(&self, alloc: Global, stores: &[Name]) -> Result<Baggage, NoMemory>
        ensures { IfOk result (λ b. b ≡ plain (lineage_text stores.now self.now)) }
    {
        match &self.told {
            Some(kept) if states_over(kept, stores) => Ok(Baggage {
                held: Held::Known(share(kept)?),
            }),
            _ => Baggage::of(alloc, stores, &self.lineage),
        }
    }

    /// The same, which keeps a text that may serve again.
    pub fn keep_baggage(&mut self, alloc: Global, stores: &[Name]) -> Result<Baggage, NoMemory>
        ensures text { IfOk result (λ b. b ≡ plain (lineage_text stores.now self.old)) }
        ensures same { self.new ≡ self.old }
    {
        let held = match &self.told {
            Some(kept) if states_over(kept, stores) => {
                if serves_again(kept) {
                    return Ok(Baggage {
                        held: Held::Known(share(kept)?),
                    });
                }
                Held::Known(with_text_one(alloc, stores, kept)?)
            }
            _ => text_held(alloc, stores, &self.lineage)?,
        };
        if let Held::Known(kept) = &held {
            self.told = Some(share(kept)?);
        }
        Ok(Baggage { held })
    }
}

impl Copies for Carried {
    fn copy(&self, alloc: Global) -> Result<Carried, NoMemory> {
        let lineage = self.lineage.copy(alloc)?;
        let told = match &self.told {
            Some(kept) => Some(share(kept)?),
            None => None,
        };
        Ok(Carried { lineage, told })
    }
}
