ghost use Rattle.std.specs.Prelude.{◌≡◌};
ghost use Rattle.anti_trace.specs.Traces.{is_by, is_on};

use anti_kind::{Actor, Entry};

/// Whether an entry is on the object of this number.
pub fn is_on(object: u32, entry: &Entry) -> bool
    ensures { result ≡ is_on object entry.now }
{
    entry.object == object
}

/// Whether an entry was made by this actor.
pub fn is_by(actor: Actor, entry: &Entry) -> bool
    ensures { result ≡ is_by actor entry.now }
{
    match actor {
        Actor::Carrier(number) => match entry.actor {
            Actor::Carrier(other) => number == other,
            _ => false,
        },
        Actor::Process(birth) => match entry.actor {
            Actor::Process(other) => {
                if birth.object == other.object {
                    birth.place == other.place
                } else {
                    false
                }
            }
            _ => false,
        },
        Actor::Newborn => match entry.actor {
            Actor::Newborn => true,
            _ => false,
        },
    }
}
