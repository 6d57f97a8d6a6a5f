ghost use Rattle.std.specs.Prelude.{◌≡◌};
ghost use Rattle.anti_kind.specs.Waiting.{brought, posted_as};

use crate::call::Call;
use crate::message::MessageKind;

/// What a call that is not ready waits for at its object, and what a route of a store waits for on which nothing is left to be
/// shipped. A message counts from 1, a subscription and a region from 0.
#[derive(Clone, Copy, PartialEq, Eq, PartialOrd, Ord)]
pub enum Awaited {
    /// A free delivery of an inbox.
    Delivery,
    /// The reply to the call of this number.
    Reply(u32),
    /// A message or a cell for this subscription.
    Handout(u32),
    /// That this version, or a later one, is brought to a region.
    Version { region: u32, version: u64 },
    /// A write.
    Writing,
}

/// What a call brings to those who wait at its object.
#[derive(Clone, Copy, PartialEq, Eq)]
pub enum Brought {
    /// Nothing that is awaited.
    Nothing,
    /// A delivery.
    Delivered,
    /// The reply to the call of this number.
    Answered(u32),
    /// A write.
    Written,
    /// A part of a version, brought to a region.
    Shipped { region: u32, version: u64 },
    /// A message that is handed out once more.
    HandedBack,
}

// What the post of a message brings.
fn posted_as(kind: MessageKind, to: u32) -> Brought
    ensures { result ≡ posted_as kind to }
{
    match kind {
        MessageKind::Call => Brought::Delivered,
        MessageKind::Send => Brought::Delivered,
        MessageKind::Reply => Brought::Answered(to),
        MessageKind::Request => Brought::Nothing,
    }
}

impl Call {
    /// What it brings to those who wait at its object.
    pub fn brought(&self) -> Brought
        ensures { result ≡ brought self.now }
    {
        match self {
            Call::Post { message } => posted_as(message.get().kind, message.get().to),
            Call::Repost { .. } => Brought::Delivered,
            Call::Write { .. } => Brought::Written,
            Call::Ship {
                region,
                version,
                ..
            } => Brought::Shipped {
                region: *region,
                version: *version,
            },
            Call::Nack { .. } => Brought::HandedBack,
            _ => Brought::Nothing,
        }
    }
}
