ghost use Rattle.std.specs.Prelude.{◌≡◌, IfErr, IfOk, OnErr, OnOk, Ok};
ghost use Rattle.anti_ids.specs.Answers.{AnswersBut};
ghost use Rattle.anti_live.specs.Clients.{IsOf, carries};
ghost use Rattle.anti_live.specs.Headers.{carried_in, carried_out};
ghost use Rattle.anti_live.specs.declared.headers.CarryFault.TheVariants as faults;
ghost use Rattle.anti_live.specs.declared.headers.CarryOutFault.TheVariants as out_faults;

use crate::client::Client;
use crate::live::Live;
use anti_baggage::{BaggageFault, decode, encode};
use anti_ids::{Bytes, LineageRefused, WriteId};
use thiserror::Error;

/// Why nothing is carried in.
#[derive(Clone, Copy, Debug, PartialEq, Eq, Error)]
pub enum CarryFault {
    /// The bytes are no text of a lineage.
    #[error("the text is no lineage: {0}")]
    Bad(BaggageFault),
    /// What is carried would have more ids than a lineage may have.
    #[error("the lineage would have too many ids")]
    Full,
    /// There was no memory.
    #[error("no memory")]
    NoMemory,
}

/// Why there is no text of what is carried.
#[derive(Clone, Copy, Debug, PartialEq, Eq, Error)]
pub enum CarryOutFault {
    /// This id is of a store that is not there.
    #[error("there is no store {}", .0.store)]
    NoStore(WriteId),
    /// There was no memory.
    #[error("no memory")]
    NoMemory,
}

impl Live {
    /// The text of what a client carries, of version 2, for a request that goes elsewhere. `NoStore` names the first id of a store that is
    /// not there, which only a row that was handed to `transfer` can bring.
    pub fn carry_out(&self, client: &Client) -> Result<Bytes, CarryOutFault>
        ensures { AnswersBut out_faults.NoMemory result (carried_out self.now.stores client.now.lineage) }
    {
        for id in client.lineage.iter() {
            if id.store as usize >= self.stores.len() {
                return Err(CarryOutFault::NoStore(*id));
            }
        }
        match encode(self.alloc, self.names.as_slice(), &client.lineage) {
            Ok(text) => Ok(text),
            Err(_) => Err(CarryOutFault::NoMemory),
        }
    }

    /// Adds the lineage of which the bytes are a text, of either version, to what a client carries. With a fault the client stays as it is.
    pub fn carry_in(&self, client: &mut Client, bytes: &[u8]) -> Result<(), CarryFault>
        ensures ok { OnOk result (carried_in self.now.stores bytes.now client.old.lineage ≡ Ok client.new.lineage) }
        ensures carried { client.new ≡ carries client.new.lineage client.old }
        ensures err { OnErr result (client.new ≡ client.old) }
        ensures cause { IfErr result (λ fault. (fault ≡ faults.NoMemory → ⊥) → carried_in self.now.stores bytes.now client.old.lineage ≡ Err fault) }
    {
        let lineage = match decode(self.alloc, self.names.as_slice(), bytes) {
            Ok(lineage) => lineage,
            Err(BaggageFault::NoMemory) => return Err(CarryFault::NoMemory),
            Err(fault) => return Err(CarryFault::Bad(fault)),
        };
        match client.lineage.transfer(&lineage) {
            Ok(()) => Ok(()),
            Err(LineageRefused::Full) => Err(CarryFault::Full),
            Err(LineageRefused::NoMemory) => Err(CarryFault::NoMemory),
        }
    }
}
