ghost use Rattle.std.specs.Prelude.{◌≡◌, ℕ, Bool, false, true, is_some};
ghost use Rattle.anti_kind.specs.Ports.{Answered};

use anti_kind::{Actor, Answer, Call, Port, Refusal, WaitPort};

// How a port is asked: once, or until the call is ready.
pub(crate) trait Asks<P: Port> {
    ghost waits: { Bool };

    // Makes a call on an object of the port. One that waits does not answer that the call is not ready, where the port has the object.
    fn ask(port: &mut P, object: u32, actor: Actor, span: u32, clock: u64, c: Call) -> Answer
        ensures answer { Answered (P.start port.old object) (record { object = object; actor = actor; span = span; clock = clock; call = c }) (P.view port.old object) (P.view port.new object) result }
        ensures others { (o : ℕ) → (o ≡ object → ⊥) → P.view port.new o ≡ P.view port.old o }
        ensures fixed { (o : ℕ) → P.start port.new o ≡ P.start port.old o }
        ensures rest { P.rest port.new ≡ P.rest port.old }
        ensures waits { waits ≡ true → is_some (P.start port.old object) ≡ true → result ≡ Answer.Refused Refusal.NotYet → ⊥ };
}

// Asks once.
pub(crate) struct Once;

impl<P: Port> Asks<P> for Once {
    ghost waits = { false };

    fn ask(port: &mut P, object: u32, actor: Actor, span: u32, clock: u64, c: Call) -> Answer {
        port.call(object, actor, span, clock, c)
    }
}

// Asks until the call is ready.
pub(crate) struct UntilReady;

impl<P: WaitPort> Asks<P> for UntilReady {
    ghost waits = { true };

    fn ask(port: &mut P, object: u32, actor: Actor, span: u32, clock: u64, c: Call) -> Answer {
        if port.has(object) {
            port.call_wait(object, actor, span, clock, c)
        } else {
            port.call(object, actor, span, clock, c)
        }
    }
}
