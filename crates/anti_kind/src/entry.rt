use crate::actor::Actor;
use crate::call::{Call, Reply};
use anti_ids::{Copies, List, NoMemory};
use std::alloc::Global;

/// One call that was made on an object: its stamp, the object, its place in the object's history, counted from 1, the number of
/// the pass that made it, 0 where there is none, who made it, the span of its process, 0 for a carrier, the call and the reply.
pub struct Entry {
    pub stamp: u64,
    pub object: u32,
    pub place: u32,
    pub seat: u32,
    pub actor: Actor,
    pub span: u32,
    pub call: Call,
    pub reply: Reply,
}

// By hand, so that no caller sees the fields.
impl Drop for Entry {
    fn drop(self) {
        let Entry {
            stamp: _,
            object: _,
            place: _,
            seat: _,
            actor: _,
            span: _,
            call,
            reply,
        } = self;
        drop(call);
        drop(reply);
    }
}

/// The calls that were made on an object, in their order.
pub type History = List<Entry>;

impl Copies for Entry {
    fn copy(&self, alloc: Global) -> Result<Entry, NoMemory> {
        let call = self.call.copy(alloc)?;
        let reply = self.reply.copy(alloc)?;
        Ok(Entry {
            stamp: self.stamp,
            object: self.object,
            place: self.place,
            seat: self.seat,
            actor: self.actor,
            span: self.span,
            call,
            reply,
        })
    }
}
