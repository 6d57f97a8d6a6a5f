use crate::actor::Actor;
use crate::call::{Call, Reply};
use crate::refusal::Refusal;

/// What a port answers to a call. Only `Made` adds anything.
#[derive(Drop)]
pub enum Answer {
    /// The call was made: the object's history now ends with its entry, which has this place, stamp and reply.
    Made {
        place: u32,
        stamp: u64,
        reply: Reply,
    },
    /// The call can't be made now.
    Refused(Refusal),
    /// It could, and there was no memory.
    NoMemory,
}

/// Some objects, each with a start and a legal history, on which calls are made. What else there is of a port (`rest`) no call changes.
pub trait Port {
    ghost use Rattle.std.specs.Prelude.{◌≡◌, ℕ, Option, is_some};
    ghost use Rattle.anti_kind.specs.Objects.{Start};
    ghost use Rattle.anti_kind.specs.Shipments.{IsShip};
    ghost use Rattle.anti_kind.specs.Ports.{Answered, View};

    /// What calls leave as it is.
    type Rest;

    ghost start: { Self → ℕ → Option Start };

    ghost view: { Self → ℕ → View };

    ghost rest: { Self → Self.Rest };

    /// Whether the port has the object of this number.
    fn has(&self, object: u32) -> bool
        ensures { result ≡ is_some (start self.now object) };

    /// Makes a call on an object, for an actor whose last stamp is `clock`. A `Ship` is never refused for want of memory.
    fn call(&mut self, object: u32, actor: Actor, span: u32, clock: u64, c: Call) -> Answer
        ensures answer { Answered (start self.old object) (record { object = object; actor = actor; span = span; clock = clock; call = c }) (view self.old object) (view self.new object) result }
        ensures others { (o : ℕ) → (o ≡ object → ⊥) → view self.new o ≡ view self.old o }
        ensures fixed { (o : ℕ) → start self.new o ≡ start self.old o }
        ensures rest { rest self.new ≡ rest self.old }
        ensures ship { IsShip c → result ≡ Answer.NoMemory → ⊥ };
}

/// A port whose calls may wait until they are ready.
pub trait WaitPort: Port {
    ghost use Rattle.std.specs.Prelude.{◌≡◌, ℕ, Some, is_some, true};
    ghost use Rattle.anti_kind.specs.Shipments.{IsShip};
    ghost use Rattle.anti_kind.specs.Ports.{Answered};

    /// Makes a call on an object that the port has, once it is ready. It may wait, and is never refused as not ready. A `Ship` is never refused
    /// for want of memory.
    fn call_wait(&mut self, object: u32, actor: Actor, span: u32, clock: u64, c: Call) -> Answer
        requires { is_some (Self.start self.old object) ≡ true }
        ensures answer { Answered (Self.start self.old object) (record { object = object; actor = actor; span = span; clock = clock; call = c }) (Self.view self.old object) (Self.view self.new object) result }
        ensures waits { result ≡ Answer.Refused Refusal.NotYet → ⊥ }
        ensures others { (o : ℕ) → (o ≡ object → ⊥) → Self.view self.new o ≡ Self.view self.old o }
        ensures fixed { (o : ℕ) → Self.start self.new o ≡ Self.start self.old o }
        ensures rest { Self.rest self.new ≡ Self.rest self.old }
        ensures ship { IsShip c → result ≡ Answer.NoMemory → ⊥ };
}
