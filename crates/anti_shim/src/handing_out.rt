ghost use Rattle.std.specs.Prelude.{◌≡◌, ℕ, is_some, true};
ghost use Rattle.anti_shim.specs.Steps.{between};
ghost use Rattle.anti_shim.specs.Shims.{Pulls, Repulls, Settles};

use crate::asks::Once;
use crate::caller::Caller;
use crate::fault::ShimFault;
use crate::kinds::{HandsOut, QueueStore, TopicStore};
use crate::store_shim::StoreShim;
use anti_kind::{Call, Handle, Port, Reply, Row};

impl<K: HandsOut> StoreShim<K> {
    /// Pulls the next message or cell for a subscription, which is named by its position among those of the store. It is refused as not
    /// ready where there is none yet. The row is that of the write; what is kept beside it is carried on by `transfer_row`.
    pub fn pull<P: Port>(
        &self,
        port: &mut P,
        who: &mut Caller,
        sub: u32,
    ) -> Result<Handle<Row>, ShimFault>
        requires { is_some (P.start port.old self.now.store) ≡ true }
        ensures answer { let step = between P.Port port.old port.new who.old who.new in
            Pulls step self.now.store sub result }
        ensures fixed { (o : ℕ) → P.start port.new o ≡ P.start port.old o }
        ensures rest { P.rest port.new ≡ P.rest port.old }
    {
        let made = who.ask::<P, Once>(port, self.store, Call::Pull { sub })?;
        Ok(pulled_row(made.reply))
    }
}

impl StoreShim<QueueStore> {
    /// Says that a message that was pulled is done, by its version. It is refused as not ready where the message is not out.
    pub fn ack<P: Port>(
        &self,
        port: &mut P,
        who: &mut Caller,
        version: u64,
    ) -> Result<(), ShimFault>
        requires { is_some (P.start port.old self.now.store) ≡ true }
        ensures answer { let step = between P.Port port.old port.new who.old who.new in
            Settles step self.now.store (Call.Ack version) result }
        ensures fixed { (o : ℕ) → P.start port.new o ≡ P.start port.old o }
        ensures rest { P.rest port.new ≡ P.rest port.old }
    {
        who.ask::<P, Once>(port, self.store, Call::Ack { version })?;
        Ok(())
    }

    /// Gives a message that was pulled back, by its version, so that it may be pulled again. It is refused as not ready where the message
    /// is not out.
    pub fn nack<P: Port>(
        &self,
        port: &mut P,
        who: &mut Caller,
        version: u64,
    ) -> Result<(), ShimFault>
        requires { is_some (P.start port.old self.now.store) ≡ true }
        ensures answer { let step = between P.Port port.old port.new who.old who.new in
            Settles step self.now.store (Call.Nack version) result }
        ensures fixed { (o : ℕ) → P.start port.new o ≡ P.start port.old o }
        ensures rest { P.rest port.new ≡ P.rest port.old }
    {
        who.ask::<P, Once>(port, self.store, Call::Nack { version })?;
        Ok(())
    }
}

impl StoreShim<TopicStore> {
    /// Takes a cell once more that the subscription pulled before, by its version. It is refused as not ready where it did not.
    pub fn repull<P: Port>(
        &self,
        port: &mut P,
        who: &mut Caller,
        sub: u32,
        version: u64,
    ) -> Result<Handle<Row>, ShimFault>
        requires { is_some (P.start port.old self.now.store) ≡ true }
        ensures answer { let step = between P.Port port.old port.new who.old who.new in
            Repulls step self.now.store sub version result }
        ensures fixed { (o : ℕ) → P.start port.new o ≡ P.start port.old o }
        ensures rest { P.rest port.new ≡ P.rest port.old }
    {
        let made = who.ask::<P, Once>(port, self.store, Call::Repull { sub, version })?;
        Ok(pulled_row(made.reply))
    }
}

// The row of a reply that hands one out.
fn pulled_row(reply: Reply) -> Handle<Row>
    requires { (row : Row) × (reply ≡ Reply.Pulled row) }
    ensures { reply ≡ Reply.Pulled result }
{
    let Reply::Pulled(row) = reply else {
        // by the `requires`
        unreachable!()
    };
    row
}
