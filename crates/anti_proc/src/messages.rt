// The messages that a process posts, and its last call.
ghost use Rattle.std.specs.Prelude.{◌≡◌, ◌+◌, ◌<◌, Some, None, true, false, IfOk};
ghost use Rattle.anti_ids.specs.List.{plain};
ghost use Rattle.anti_ids.specs.declared.limits.TheConstants.{MOST_DEPTH};
ghost use Rattle.anti_baggage.specs.Texts.{lineage_text};
ghost use Rattle.anti_proc.specs.Local.{Setting, Local};
ghost use Rattle.anti_proc.specs.Meaning.{Go, after_post, asks, leave, message};
ghost use Rattle.anti_proc.specs.Trees.{Ends};
ghost use Rattle.anti_app.specs.Objects.{store_names};
ghost use Rattle.anti_proc.specs.inner.Standing.{local_in, setting_in, stage_or, stage_tree};

use crate::end::BodyEnd;
use crate::next::{After, Next, Stage};
use crate::task::Duty;
use crate::way::Way;
use anti_app::store_names;
use anti_baggage::Baggage;
use anti_ids::{Copies, Name, NoMemory, Value};
use anti_kind::{Call, Handle, Message, MessageKind, Reply};

/// What is next after a message was posted to an inbox: the reply to a call is to be taken, and a send has none.
pub fn hear(inbox: u32, variable: Option<Name>, reply: &Reply) -> Option<Stage>
    ensures { (s : Setting) (l : Local) (go : Go) → stage_or result s l go
        ≡ after_post inbox variable s l go reply.now }
{
    match (variable, reply) {
        (Some(variable), Reply::Posted(number)) => Some(Stage::Asks(Next {
            object: inbox,
            call: Call::TakeReply { number: *number },
            after: After::Heard { variable },
        })),
        _ => None,
    }
}

// The last call of a process, behind which it is at its end.
fn last(object: u32, call: Call, end: BodyEnd) -> Stage
    ensures { (s : Setting) (l : Local) (go : Go) → stage_tree result s l go
        ≡ asks object call None l (λ reply. Ends end) }
{
    Stage::Asks(Next {
        object,
        call,
        after: After::Left(end),
    })
}

impl<'a> Way<'a> {
    // The text of what a process carries.
    fn baggage(&self) -> Result<Baggage, NoMemory>
        ensures { IfOk result (λ text. text
            ≡ plain (lineage_text (store_names self.now.app.now) self.now.changes.carried)) }
    {
        let alloc = self.given.alloc;
        let names = store_names(alloc, self.app)?;
        self.changes.carried.baggage(alloc, names.as_slice())
    }

    // The same, which is kept for further messages.
    fn keep_baggage(&mut self) -> Result<Baggage, NoMemory>
        ensures text { IfOk result (λ text. text
            ≡ plain (lineage_text (store_names self.old.app.now) self.old.changes.carried)) }
        ensures same { self.new ≡ self.old }
    {
        let alloc = self.given.alloc;
        let names = store_names(alloc, self.app)?;
        self.changes.carried.keep_baggage(alloc, names.as_slice())
    }

    /// The message of a call or a send to a handler, which is not too deep.
    pub fn message(
        &mut self,
        kind: MessageKind,
        handler: Name,
        value: Value,
    ) -> Result<Handle<Message>, NoMemory>
        requires { self.old.given.now.role.depth < MOST_DEPTH }
        ensures message { IfOk result (λ m. m
            ≡ message kind 0 (self.old.given.now.role.depth + 1) handler value (setting_in self.old)
            (local_in self.old)) }
        ensures same { self.new ≡ self.old }
    {
        let baggage = self.keep_baggage()?;
        Handle::new(
            self.given.alloc,
            Message {
                kind,
                to: 0,
                depth: self.given.role.depth + 1,
                handler,
                value,
                baggage,
            },
        )
    }

    // The reply to the call of a number, by a handler.
    fn answer(&self, number: u32, handler: Name) -> Result<Handle<Message>, NoMemory>
        ensures { IfOk result (λ m. m
            ≡ message MessageKind.Reply number 0 handler self.now.changes.reply (setting_in self.now)
            (local_in self.now)) }
    {
        let value = self.changes.reply.copy(self.given.alloc)?;
        let baggage = self.baggage()?;
        Handle::new(
            self.given.alloc,
            Message {
                kind: MessageKind::Reply,
                to: number,
                depth: 0,
                handler,
                value,
                baggage,
            },
        )
    }

    // The end of a process that was called, which posts its reply first.
    fn replies(
        &self,
        inbox: u32,
        number: u32,
        handler: Name,
        end: BodyEnd,
    ) -> Result<Stage, NoMemory>
        ensures { IfOk result (λ stage. (go : Go)
            → stage_tree stage (setting_in self.now) (local_in self.now) go
            ≡ asks inbox (Call.Post (message MessageKind.Reply number 0 handler self.now.changes.reply
            (setting_in self.now) (local_in self.now))) None (local_in self.now) (λ reply. Ends end)) }
    {
        let message = self.answer(number, handler)?;
        Ok(last(inbox, Call::Post { message }, end))
    }

    /// The end behind the last statement of the body. A process that owes something does it first: it acks the message of a queue.
    pub fn ends(&self) -> Result<Stage, NoMemory>
        ensures { IfOk result (λ stage. (go : Go)
            → stage_tree stage (setting_in self.now) (local_in self.now) go
            ≡ leave true (setting_in self.now) BodyEnd.Fine (local_in self.now)) }
    {
        match self.given.role.duty {
            Duty::Free => Ok(Stage::Over(BodyEnd::Fine)),
            Duty::Answers {
                inbox,
                number,
                handler,
            } => self.replies(inbox, number, handler, BodyEnd::Fine),
            Duty::Works { store, version } => {
                Ok(last(store, Call::Ack { version }, BodyEnd::Fine))
            }
        }
    }

    /// An end before that. A process that owes something does it first: it nacks the message of a queue.
    pub fn nack(&self, end: BodyEnd) -> Result<Option<Stage>, NoMemory>
        ensures { IfOk result (λ stage. (go : Go)
            → stage_or stage (setting_in self.now) (local_in self.now) go
            ≡ leave false (setting_in self.now) end (local_in self.now)) }
    {
        match self.given.role.duty {
            Duty::Free => Ok(Some(Stage::Over(end))),
            Duty::Answers {
                inbox,
                number,
                handler,
            } => Ok(Some(self.replies(inbox, number, handler, end)?)),
            Duty::Works { store, version } => Ok(Some(last(store, Call::Nack { version }, end))),
        }
    }
}
