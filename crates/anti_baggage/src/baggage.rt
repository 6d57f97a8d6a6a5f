ghost use Rattle.std.specs.Prelude.{◌≡◌, ◌≤◌, ◌^◌, length, IfOk, IfSome, Ok};
ghost use Rattle.anti_ids.specs.Answers.{AnswersBut};
ghost use Rattle.anti_ids.specs.List.{plain};
ghost use Rattle.anti_baggage.specs.Reading.{read_lineage};
ghost use Rattle.anti_baggage.specs.Texts.{lineage_text, lineage_text_one};
ghost use Rattle.anti_baggage.specs.declared.fault.BaggageFault.TheVariants as faults;

use crate::carried::Carried;
use crate::decoder::decode;
use crate::fault::BaggageFault;
use crate::held::{Held, share, states_over, text_held};
use anti_ids::{Bytes, Copies, Lineage, Name, NoMemory};
use std::alloc::Global;
use std::marker::Model;

/// The text that goes with a message. A text that was made here keeps beside it the lineage that it states, so that it need not be read again; one
/// from outside has none. Contracts see the text alone.
pub struct Baggage {
    pub(crate) held: Held,
}

/// What a text is known to state: a lineage, and its text of version 1 where that is kept.
#[derive(Drop)]
pub struct Told<'a> {
    pub lineage: &'a Lineage,
    pub text_one: Option<&'a [u8]>,
}

impl Model for Baggage {
    ghost use Rattle.std.specs.Prelude.{ℕ};
    ghost use Rattle.std.specs.Coded.{coded_ℕ};
    ghost use Rattle.anti_ids.specs.List.{Listed};
    ghost use Rattle.anti_ids.specs.ListCalls.{list_code};
    ghost use Rattle.anti_baggage.specs.inner.Kept.{IsHeld, text_of};

    ghost Value = { Listed ℕ };

    ghost coded = { list_code coded_ℕ };

    ghost view = { λ b. text_of b.held };

    ghost invariant = { λ b. IsHeld b.held };
}

// By hand, so that no caller sees the field.
impl Drop for Baggage {
    fn drop(self) {
        let Baggage { held } = self;
        drop(held);
    }
}

impl Baggage {
    /// The baggage with a text, whoever wrote it. It takes no memory.
    pub fn from_text(text: Bytes) -> Baggage
        ensures { result ≡ text }
    {
        Baggage {
            held: Held::Alone(text),
        }
    }

    /// The text of a lineage over the names of the stores by their numbers. The only error is want of memory.
    pub fn of(alloc: Global, stores: &[Name], lineage: &Lineage) -> Result<Baggage, NoMemory>
        ensures { IfOk result (λ b. b ≡ plain (lineage_text stores.now lineage.now)) }
    {
        let held = text_held(alloc, stores, lineage)?;
        Ok(Baggage { held })
    }

    /// The text. It takes no memory.
    pub fn bytes(&self) -> &[u8]
        ensures { result.now ≡ self.now.items }
    {
        match &self.held {
            Held::Alone(text) => text.bytes(),
            Held::Known(kept) => kept.text.bytes(),
        }
    }

    /// What it is known to state over the names of the stores by their numbers. `None` says nothing: `lineage` tells. It takes no memory.
    pub fn told(&self, stores: &[Name]) -> Option<Told>
        ensures states { IfSome result (λ told. read_lineage stores.now self.now.items ≡ Ok told.lineage.now) }
        ensures one { IfSome result (λ told. IfSome told.text_one (λ text. text.now ≡ lineage_text_one stores.now told.lineage.now)) }
    {
        match &self.held {
            Held::Known(kept) if states_over(kept, stores) => Some(Told {
                lineage: &kept.lineage,
                text_one: match &kept.text_one {
                    Some(text) => Some(text.bytes()),
                    None => None,
                },
            }),
            _ => None,
        }
    }

    /// The lineage that it states, over the names of the stores by their numbers, which fit in 32 bits; or the first fault, as `decode` has it.
    pub fn lineage(&self, alloc: Global, stores: &[Name]) -> Result<Lineage, BaggageFault>
        requires { length stores.now ≤ 2 ^ 32 }
        ensures { AnswersBut faults.NoMemory result (read_lineage stores.now self.now.items) }
    {
        match self.carried(alloc, stores) {
            Ok(carried) => Ok(carried.into_lineage()),
            Err(fault) => Err(fault),
        }
    }

    /// The same, for who is to carry it. It keeps this text where that is known to be its text.
    pub fn carried(&self, alloc: Global, stores: &[Name]) -> Result<Carried, BaggageFault>
        requires { length stores.now ≤ 2 ^ 32 }
        ensures { AnswersBut faults.NoMemory result (read_lineage stores.now self.now.items) }
    {
        match &self.held {
            Held::Known(kept) if states_over(kept, stores) => match Carried::told(alloc, kept) {
                Ok(carried) => Ok(carried),
                Err(NoMemory) => Err(BaggageFault::NoMemory),
            },
            _ => match decode(alloc, stores, self.bytes()) {
                Ok(lineage) => Ok(Carried::from_lineage(lineage)),
                Err(fault) => Err(fault),
            },
        }
    }
}

impl Copies for Baggage {
    fn copy(&self, alloc: Global) -> Result<Baggage, NoMemory> {
        let held = match &self.held {
            Held::Alone(text) => Held::Alone(text.copy(alloc)?),
            Held::Known(kept) => Held::Known(share(kept)?),
        };
        Ok(Baggage { held })
    }
}
