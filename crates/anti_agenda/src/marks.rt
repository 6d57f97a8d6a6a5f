ghost use Rattle.std.specs.Prelude.{◌≡◌, ◌<◌};
ghost use Rattle.anti_agenda.specs.inner.Marking.{MarksOne, kind, is_marked, place};

use anti_kind::Awaited;

// The marks of 32 objects, which no application passes, for each of five kinds.
const MOST_OBJECTS: usize = 32;

const MOST_MARKS: usize = 160;

/// At which objects somebody ever slept for a thing of which kind.
#[derive(Drop)]
pub(crate) struct Marks {
    at: [bool; MOST_MARKS],
}

// The number of its kind.
fn kind(awaited: Awaited) -> usize
    ensures is { result ≡ kind awaited }
    ensures few { result < 5 }
{
    match awaited {
        Awaited::Delivery => 0,
        Awaited::Reply(_) => 1,
        Awaited::Handout(_) => 2,
        Awaited::Version { .. } => 3,
        Awaited::Writing => 4,
    }
}

// Where the mark of a kind stands for an object. Of objects past the last it may be another's.
fn place(object: u32, awaited: Awaited) -> usize
    ensures { result ≡ place object awaited }
{
    kind(awaited) * MOST_OBJECTS + object as usize
}

impl Marks {
    /// No mark.
    pub(crate) fn new() -> Marks {
        Marks {
            at: [false; MOST_MARKS],
        }
    }

    /// Whether a thing of its kind may be awaited at the object: where there is room for no mark it may.
    pub(crate) fn has(&self, object: u32, awaited: Awaited) -> bool
        ensures { result ≡ is_marked self.now object awaited }
    {
        let place = place(object, awaited);
        if place < MOST_MARKS {
            return self.at[place];
        }
        true
    }

    /// Marks that a thing of its kind is awaited at the object.
    pub(crate) fn set(&mut self, object: u32, awaited: Awaited)
        ensures { MarksOne object awaited self.old self.new }
    {
        let place = place(object, awaited);
        if place < MOST_MARKS {
            self.at[place] = true;
        }
    }
}
