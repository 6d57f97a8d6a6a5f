use crate::handle::Handle;
use anti_baggage::Baggage;
use anti_ids::{Copies, List, Name, NoMemory, Value};
use std::alloc::Global;

/// What a message is: a request of the application, a call that waits for a reply, a send that doesn't, or the reply to a call.
#[derive(Clone, Copy, PartialEq, Eq)]
pub enum MessageKind {
    Request,
    Call,
    Send,
    Reply,
}

/// A message. In a reply `to` is the number of the call that it answers, and `handler` the one that answered; else `to` is 0.
/// `depth` is 0 in a request and a reply, and one more than its sender's in a call and a send. `baggage` is the text of a lineage.
#[derive(Drop)]
pub struct Message {
    pub kind: MessageKind,
    pub to: u32,
    pub depth: u32,
    pub handler: Name,
    pub value: Value,
    pub baggage: Baggage,
}

/// A list of messages.
pub type Messages = List<Handle<Message>>;

impl Copies for Message {
    fn copy(&self, alloc: Global) -> Result<Message, NoMemory> {
        let value = self.value.copy(alloc)?;
        let baggage = self.baggage.copy(alloc)?;
        Ok(Message {
            kind: self.kind,
            to: self.to,
            depth: self.depth,
            handler: self.handler,
            value,
            baggage,
        })
    }
}
